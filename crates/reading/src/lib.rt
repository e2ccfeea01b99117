// Reading a configuration's file: any bytes, to a whole configuration or the first refusal and its place.
#![tactic(auto)]

ghost use Rattle.std.specs.Prelude.{◌≡◌, get_or};
ghost use Rattle.reading.specs.Reading.{size_of, size_in, number_at, entry_read, in_order, head_of, body_fault, refused_at, config_of};

use config::Config;
use entries::Entry;

// How a reading ended: with a whole configuration, or with the place of a field, from 1, and a number of refusal.
#[derive(Clone, Copy)]
pub enum Outcome {
    Whole,
    Refused(usize, u8),
}

// A refused reading has the blank configuration beside it.
#[derive(Clone, Copy)]
pub struct Reading {
    pub outcome: Outcome,
    pub config: Config,
}

// What a text begins with: a part's tag and how long its body is, the end, or why it is no field.
#[derive(Clone, Copy)]
pub enum Head {
    Field(u8, usize),
    End,
    Bad(u8),
}

// The byte at place i, 0 past the end.
fn byte_at(t: &[u8], i: usize) -> u8
    ensures { result ≡ get_or t.now i 0 }
{
    t.get(i).copied().unwrap_or(0)
}

// The number of the four bytes from place i on.
fn number_at(t: &[u8], i: u8) -> u32
    ensures { result ≡ number_at t.now i }
{
    let k = i as usize;
    wire::number(
        byte_at(t, k),
        byte_at(t, k + 1),
        byte_at(t, k + 2),
        byte_at(t, k + 3),
    )
}

// The length of a body by its tag; none fits an unknown tag.
#[tactic(auto, unfolding(crate::specs::Reading::size_of))]
fn size_of(tag: u8) -> usize
    ensures { result ≡ size_of tag }
{
    match tag {
        numbers::TAG_EDITION => numbers::LENGTH_EDITION,
        numbers::TAG_RUNNABLE => numbers::LENGTH_RUNNABLE,
        numbers::TAG_VARIABLE => numbers::LENGTH_VARIABLE,
        numbers::TAG_AREA => numbers::LENGTH_AREA,
        numbers::TAG_REQUIRED => numbers::LENGTH_REQUIRED,
        numbers::TAG_PROVIDED => numbers::LENGTH_PROVIDED,
        numbers::TAG_LINK => numbers::LENGTH_LINK,
        numbers::TAG_OPERATION => numbers::LENGTH_OPERATION,
        numbers::TAG_TIMER => numbers::LENGTH_TIMER,
        numbers::TAG_DATA_EVENT => numbers::LENGTH_DATA_EVENT,
        numbers::TAG_RETURN_EVENT => numbers::LENGTH_RETURN_EVENT,
        numbers::TAG_INCOMING | numbers::TAG_OUTGOING => numbers::LENGTH_LISTED,
        numbers::TAG_END => numbers::LENGTH_END,
        _ => numbers::NO_LENGTH,
    }
}

// The same in an edition, which may not have fields with the tag.
#[tactic(auto, unfolding(crate::specs::Reading::size_in))]
fn size_in(edition: u8, tag: u8) -> usize
    ensures { result ≡ size_in edition tag }
{
    if config::has_field(edition, tag) {
        size_of(tag)
    } else {
        numbers::NO_LENGTH
    }
}

// The entry that the body of a field says, three bytes into the text.
#[tactic(auto, unfolding(crate::specs::Reading::entry_read))]
fn entry_read(tag: u8, t: &[u8]) -> Entry
    ensures { result ≡ entry_read tag t.now }
{
    let first = byte_at(t, 3);
    let second = byte_at(t, 4);
    match tag {
        numbers::TAG_RUNNABLE => Entry {
            first,
            second,
            third: byte_at(t, 9),
            number: number_at(t, 5),
        },
        numbers::TAG_VARIABLE => Entry {
            first,
            second,
            third: 0,
            number: number_at(t, 5),
        },
        numbers::TAG_AREA => Entry {
            first,
            ..Entry::BLANK
        },
        numbers::TAG_OPERATION => Entry {
            first,
            second,
            third: byte_at(t, 5),
            number: number_at(t, 6),
        },
        numbers::TAG_TIMER => Entry {
            first,
            number: number_at(t, 4),
            ..Entry::BLANK
        },
        _ => Entry {
            first,
            second,
            ..Entry::BLANK
        },
    }
}

// 22: the edition first and only there, then no tag below the one before; 0 stands for none before.
// Kept: 0 for none before, since the definitions in_order and head_of have it so.
#[tactic(auto, unfolding(crate::specs::Reading::in_order))]
fn in_order(last: u8, tag: u8) -> bool
    ensures { result ≡ in_order last tag }
{
    if last == 0 {
        tag == numbers::TAG_EDITION
    } else {
        last <= tag && tag != numbers::TAG_EDITION
    }
}

// The field at the front of a text, behind one with the tag last: 21, then 22.
#[tactic(auto, unfolding(crate::specs::Reading::head_of))]
fn head_of(edition: u8, t: &[u8], last: u8) -> Head
    ensures { result ≡ head_of edition t.now last }
{
    let [tag, high, low, body @ ..] = t else {
        return Head::Bad(numbers::BAD_FRAME);
    };
    let size = size_in(edition, *tag);
    if wire::length_of(*high, *low) != size || body.len() < size {
        return Head::Bad(numbers::BAD_FRAME);
    }
    if !in_order(last, *tag) {
        return Head::Bad(numbers::BAD_ORDER);
    }
    if *tag == numbers::TAG_END {
        return Head::End;
    }
    Head::Field(*tag, size)
}

// 24 for the edition, 23 to 26 for a part, or 0.
// Kept: 0 for no fault, since the definition body_fault has it so.
#[tactic(auto, unfolding(crate::specs::Reading::body_fault))]
fn body_fault(cfg: Config, tag: u8, t: &[u8]) -> u8
    ensures { result ≡ body_fault cfg tag t.now }
{
    if tag != numbers::TAG_EDITION {
        return entries::entry_fault(cfg, tag, entries::count_of(cfg, tag), entry_read(tag, t));
    }
    if config::is_edition(byte_at(t, 3)) {
        0
    } else {
        numbers::OUT_OF_RANGE
    }
}

#[tactic(auto, unfolding(crate::specs::Reading::refused_at))]
fn refused_at(place: usize, number: u8) -> Reading
    ensures { result ≡ refused_at place number }
{
    Reading {
        outcome: Outcome::Refused(place, number),
        config: Config::none(),
    }
}

// The configuration that the bytes s say, or the first fault and its place.
pub fn read_config(s: &[u8]) -> Reading
    ensures { result ≡ config_of s.now }
{
    let mut cfg = Config::none();
    let mut t = s;
    let mut last = 0;
    let mut place: usize = 1;
    loop {
        match head_of(cfg.edition, t, last) {
            Head::Bad(number) => return refused_at(place, number),
            Head::End => {
                if t.len() == 3 {
                    return Reading {
                        outcome: Outcome::Whole,
                        config: cfg,
                    };
                }
                return refused_at(place + 1, numbers::BAD_FRAME);
            }
            Head::Field(tag, size) => {
                let fault = body_fault(cfg, tag, t);
                if fault != 0 {
                    return refused_at(place, fault);
                }
                cfg = entries::placed(cfg, tag, entry_read(tag, t));
                t = &t[3 + size..];
                last = tag;
                place += 1;
            }
        }
    }
}
