// The forms of lines, a row for each: which field it is, what one byte of that field is, and the words. A row is read both ways, to make a line of a
// field and a field of a line.
//
// The first letter of a row is the field: `e` the edition, a digit the part whose tag is 10 and this digit in hexadecimal, `s` a step, `z` the end,
// `n` a name; `v` is the word of a kind of value. The second is what chooses among the rows of a field, counted from `a` for 0: of a step its code, of a
// part its second byte, of a value its kind; `-` chooses nothing, and of a value it is any bad one. In the words `%b2` is byte 2 of the body, `%n2` the number in four bytes from there, `%v2` the value in five, `%w2` the number of a value that
// is a Number, `%02` the number of a part of kind 0, with its name; `#0` is the part's own number, `@0` its own name, `!0` a number and a name.
ghost use Rattle.std.specs.Prelude.{◌<◌, ◌≤◌, length, IfSome};
ghost use Rattle.std.specs.Iterator.{at_most};

pub(crate) const FORMS: [u8; 2449] = *b"vaVoid
vbNumber
vcOk
vdLimit
veNoData
vfTimeout
vgNeverReceived
vhInvalid
viFull
vjServerErr
v-Value
e-edition %b0
0arunnable #0 component %b0 capacity %b6 interval %n2@0
0brunnable #0 component %b0 capacity %b6 interval %n2 concurrent@0
0crunnable #0 component %b0 capacity %b6 interval %n2 init@0
0drunnable #0 component %b0 capacity %b6 interval %n2 concurrent init@0
0erunnable #0 component %b0 capacity %b6 interval %n2 counting@0
0frunnable #0 component %b0 capacity %b6 interval %n2 concurrent counting@0
0grunnable #0 component %b0 capacity %b6 interval %n2 init counting@0
0hrunnable #0 component %b0 capacity %b6 interval %n2 concurrent init counting@0
0-runnable #0 component %b0 capacity %b6 interval %n2 flags %b1@0
1avariable #1 component %b0@1
1bvariable #1 component %b0 initial %n2@1
1-variable #1 component %b0 mark %b1 initial %n2@1
2-area #2 component %b0@2
3-required #3 component %b0 capacity %b1@3
4aprovided #4 component %b0 unqueued@4
4bprovided #4 component %b0 queued@4
4-provided #4 component %b0 kind %b1@4
5-link #5 provided %40 required %31
6aoperation #6 component %b0 synchronous runnable %02 timeout %n3@6
6boperation #6 component %b0 asynchronous runnable %02 timeout %n3@6
6-operation #6 component %b0 kind %b1 runnable %02 timeout %n3@6
7-timer #7 runnable %00 period %n1@7
8-data event #8 runnable %00 required %31
9-return event #9 runnable %00 operation %61
a-incoming #a runnable %00 required %31
b-outgoing #b runnable %00 provided %41
z-end
sbslot %b1 read variable %12 -> %v8
scslot %b1 write variable %12 %v3 -> %v8
sdslot %b1 enter area %22 -> %v8
seslot %b1 exit area %22 -> %v8
sfslot %b1 read required %32 -> %v8
sgslot %b1 write provided %42 %v3 -> %v8
shslot %b1 updated required %32 -> %v8
sislot %b1 invalidate provided %42 -> %v8
sjslot %b1 receive required %32 -> %v8
skslot %b1 send provided %42 %v3 -> %v8
slslot %b1 call operation %62 %v3 -> %v8
smslot %b1 result operation %62 -> %v8
snslot %b1 hand back %v3 -> %v8
soslot %b1 end -> %v8
spscheduler spawn runnable %02 -> %v8
sqscheduler timeout operation %62 -> %v8
srscheduler tick timer %72 -> %v8
ssscheduler wait %w3 -> %v8
stslot %b1 fail -> %v8
suslot %b1 hold required %32 for %w3 -> %v8
svslot %b1 give up -> %v8
swslot %b1 read copy required %32 -> %v8
sxslot %b1 write copy provided %42 %v3 -> %v8
s-step %b0 who %b1 what %b2 %v3 -> %v8
n-runnable !0
n-variable !1
n-area !2
n-required !3
n-provided !4
n-operation !6
n-timer !7
";

// What a row has the form of.
#[derive(Clone, Copy, PartialEq, Eq)]
pub(crate) enum Subject {
    // The word of a kind of value.
    Value,
    // A line that gives a part its name.
    Name,
    // The line of a field, with its tag.
    Field(u8),
}

// A row: what it has the form of, the byte that chooses it, if one does, and its words.
#[derive(Clone, Copy)]
pub(crate) struct Row<'a> {
    pub subject: Subject,
    pub choice: Option<u8>,
    pub words: &'a [u8],
}

impl<'a> Row<'a> {
    fn of(text: &'a [u8]) -> Option<Row<'a>> {
        match text {
            [letter, choice, words @ ..] => Some(Row {
                subject: subject_of(*letter),
                choice: choice.checked_sub(b'a'),
                words,
            }),
            _ => None,
        }
    }

    // It has the form of a line, and is no word of a value.
    pub(crate) fn is_line(&self) -> bool {
        self.subject != Subject::Value
    }
}

// The rows of a table, each up to the end of its line.
#[derive(Clone, Copy)]
pub(crate) struct Rows<'a>(pub &'a [u8]);

impl<'a> Iterator for Rows<'a> {
    type Item = Row<'a>;

    ghost remaining = { λ s. at_most (length s.0.now) };

    fn next(&mut self) -> Option<Row<'a>> {
        let end = self.0.iter().position(|b| *b == b'\n')?;
        let row = Row::of(&self.0[..end]);
        self.0 = &self.0[end + 1..];
        row
    }
}

// What an item of a row's words stands for. A place is one in the body of a field.
#[derive(Clone, Copy)]
pub(crate) enum Meaning<'a> {
    Word(&'a [u8]),
    // A byte of the field.
    Byte(u8),
    // The number in four bytes.
    Long(u8),
    // The value in five bytes.
    Value(u8),
    // The number of a value that is a Number.
    Amount(u8),
    // The number of a part of a kind, with its name.
    Part { kind: u8, place: u8 },
    // The own number of a part of a kind.
    Own(u8),
    // Its own name.
    OwnName(u8),
    // A number and a name of a part of a kind.
    Named(u8),
}

// An item of a row's words, and whether a blank stands before it.
#[derive(Clone, Copy)]
pub(crate) struct Item<'a> {
    pub spaced: bool,
    pub meaning: Meaning<'a>,
}

// The items of a row's words.
#[derive(Clone, Copy)]
pub(crate) struct Items<'a>(pub &'a [u8]);

impl<'a> Iterator for Items<'a> {
    type Item = Item<'a>;

    ghost remaining = { λ s. at_most (length s.0.now) };

    fn next(&mut self) -> Option<Item<'a>> {
        let (spaced, words) = match self.0 {
            [b' ', words @ ..] => (true, words),
            words => (false, words),
        };
        let (meaning, behind) = split_meaning(words)?;
        self.0 = behind;
        Some(Item { spaced, meaning })
    }
}

// The item that words start with, and what stands behind it.
fn split_meaning(words: &[u8]) -> Option<(Meaning<'_>, &[u8])>
    ensures { IfSome result (λ p. length p.1.now < length words.now) }
{
    match words {
        [] => None,
        [b'%', b'b', place, behind @ ..] => Some((Meaning::Byte(place_of(*place)), behind)),
        [b'%', b'n', place, behind @ ..] => Some((Meaning::Long(place_of(*place)), behind)),
        [b'%', b'v', place, behind @ ..] => Some((Meaning::Value(place_of(*place)), behind)),
        [b'%', b'w', place, behind @ ..] => Some((Meaning::Amount(place_of(*place)), behind)),
        [b'%', kind, place, behind @ ..] => {
            let (kind, place) = (kind_of(*kind), place_of(*place));
            Some((Meaning::Part { kind, place }, behind))
        }
        [b'#', kind, behind @ ..] => Some((Meaning::Own(kind_of(*kind)), behind)),
        [b'@', kind, behind @ ..] => Some((Meaning::OwnName(kind_of(*kind)), behind)),
        [b'!', kind, behind @ ..] => Some((Meaning::Named(kind_of(*kind)), behind)),
        [_, others @ ..] => {
            let (word, behind) = words.split_at(words.len() - behind_word(others).len());
            Some((Meaning::Word(word), behind))
        }
    }
}

// What stands behind the letters of a word.
fn behind_word(words: &[u8]) -> &[u8]
    ensures { length result.now ≤ length words.now }
{
    match words.iter().position(|c| is_special(*c)) {
        Some(end) => &words[end..],
        None => &[],
    }
}

// A letter that starts an item other than a word.
fn is_special(c: u8) -> bool {
    matches!(c, b' ' | b'%' | b'#' | b'@' | b'!')
}

// The place in a body that a digit stands for: a body has 13 bytes, and a value five.
fn place_of(c: u8) -> u8
    ensures { result ≤ 8 }
{
    match c {
        b'0'..=b'8' => c - b'0',
        _ => 0,
    }
}

// The kind of part that a digit in hexadecimal stands for; 12 is none.
fn kind_of(c: u8) -> u8
    ensures { result ≤ 12 }
{
    match c {
        b'0'..=b'9' => c - b'0',
        b'a' => 10,
        b'b' => 11,
        _ => numbers::PART_KINDS,
    }
}

// What the first letter of a row stands for.
fn subject_of(c: u8) -> Subject {
    match c {
        b'v' => Subject::Value,
        b'n' => Subject::Name,
        _ => Subject::Field(tag_of(c)),
    }
}

// The tag of the field that the first letter of a row stands for.
fn tag_of(c: u8) -> u8 {
    match c {
        b'e' => numbers::TAG_EDITION,
        b's' => numbers::TAG_STEP,
        b'z' => numbers::TAG_END,
        _ => numbers::TAG_RUNNABLE + kind_of(c),
    }
}

// How many bytes the body of a field has, if a field has this tag.
pub(crate) fn size_of(tag: u8) -> Option<usize>
    ensures { IfSome result (λ n. n ≤ 13) }
{
    match tag {
        numbers::TAG_EDITION => Some(numbers::LENGTH_EDITION),
        numbers::TAG_RUNNABLE => Some(numbers::LENGTH_RUNNABLE),
        numbers::TAG_VARIABLE => Some(numbers::LENGTH_VARIABLE),
        numbers::TAG_AREA => Some(numbers::LENGTH_AREA),
        numbers::TAG_REQUIRED => Some(numbers::LENGTH_REQUIRED),
        numbers::TAG_PROVIDED => Some(numbers::LENGTH_PROVIDED),
        numbers::TAG_LINK => Some(numbers::LENGTH_LINK),
        numbers::TAG_OPERATION => Some(numbers::LENGTH_OPERATION),
        numbers::TAG_TIMER => Some(numbers::LENGTH_TIMER),
        numbers::TAG_DATA_EVENT => Some(numbers::LENGTH_DATA_EVENT),
        numbers::TAG_RETURN_EVENT => Some(numbers::LENGTH_RETURN_EVENT),
        numbers::TAG_INCOMING | numbers::TAG_OUTGOING => Some(numbers::LENGTH_LISTED),
        numbers::TAG_STEP => Some(numbers::LENGTH_STEP),
        numbers::TAG_END => Some(numbers::LENGTH_END),
        _ => None,
    }
}

// The place in the body of the byte that chooses among the rows of a field: of a step its first, of a part its second.
pub(crate) fn choosing(tag: u8) -> usize
    ensures { result < 13 }
{
    if tag == numbers::TAG_STEP { 0 } else { 1 }
}
