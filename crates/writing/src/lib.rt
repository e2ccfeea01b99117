// A configuration written as its text into a lent buffer: the edition, the entries of each kind, the end.
#![tactic(auto)]

ghost use Rattle.std.specs.Prelude.{◌≡◌, ◌+◌, leb};
ghost use Rattle.wire.specs.Bytes.{Written};
ghost use Rattle.writing.specs.Writing.{field_size, entry_bytes, kind_size, kind_bytes, parts_size, parts_bytes, config_to, config_written};

use config::Config;
use entries::Entry;
use wire::Wrote;

// The field of a part, written from a place on: its tag, the length of its body, its body.
#[tactic(auto, unfolding(crate::specs::Writing::entry_bytes))]
fn write_entry(buf: &mut [u8], at: usize, tag: u8, e: Entry) -> Wrote
    ensures { Written buf.old at (entry_bytes tag e) result buf.new }
{
    let [a, b, c, d] = e.number.to_be_bytes();
    match tag {
        numbers::TAG_RUNNABLE => {
            wire::write(
                buf,
                at,
                &[tag, 0, 7, e.first, e.second, a, b, c, d, e.third],
            )
        }
        numbers::TAG_VARIABLE => wire::write(buf, at, &[tag, 0, 6, e.first, e.second, a, b, c, d]),
        numbers::TAG_AREA => wire::write(buf, at, &[tag, 0, 1, e.first]),
        numbers::TAG_OPERATION => {
            wire::write(
                buf,
                at,
                &[tag, 0, 7, e.first, e.second, e.third, a, b, c, d],
            )
        }
        numbers::TAG_TIMER => wire::write(buf, at, &[tag, 0, 5, e.first, a, b, c, d]),
        _ => wire::write(buf, at, &[tag, 0, 2, e.first, e.second]),
    }
}

// How many bytes the field of a part has.
#[tactic(auto, unfolding(crate::specs::Writing::field_size))]
fn field_size(tag: u8) -> u8
    ensures { result ≡ field_size tag }
{
    match tag {
        numbers::TAG_RUNNABLE => numbers::SIZE_RUNNABLE,
        numbers::TAG_VARIABLE => numbers::SIZE_VARIABLE,
        numbers::TAG_AREA => numbers::SIZE_AREA,
        numbers::TAG_OPERATION => numbers::SIZE_OPERATION,
        numbers::TAG_TIMER => numbers::SIZE_TIMER,
        _ => numbers::SIZE_PAIR,
    }
}

// How many bytes the fields of a kind have.
#[tactic(auto, unfolding(crate::specs::Writing::kind_size))]
fn kind_size(cfg: Config, tag: u8) -> u16
    ensures { result ≡ kind_size cfg tag }
{
    u16::from(entries::count_of(cfg, tag)) * u16::from(field_size(tag))
}

// So many bytes from a place on lie inside.
fn has_room(room: usize, at: usize, size: usize) -> bool
    ensures { result ≡ leb (at + size) room }
{
    at <= room && size <= room - at
}

// The fields of a kind, one behind the other.
fn write_kind(buf: &mut [u8], at: usize, cfg: Config, tag: u8) -> Wrote
    ensures { Written buf.old at (kind_bytes cfg tag) result buf.new }
{
    if !has_room(buf.len(), at, kind_size(cfg, tag) as usize) {
        return Wrote::Refused(numbers::NO_ROOM);
    }
    let size = field_size(tag) as usize;
    let mut next = at;
    for i in 0..entries::count_of(cfg, tag) {
        write_entry(buf, next, tag, entries::entry_of(cfg, tag, i));
        next += size;
    }
    Wrote::To(next)
}

// How many bytes the fields of all kinds have.
#[tactic(auto, unfolding(crate::specs::Writing::parts_size))]
fn parts_size(cfg: Config) -> u32
    ensures { result ≡ parts_size cfg }
{
    let mut size = 0;
    for j in 0..numbers::PART_KINDS {
        size += u32::from(kind_size(cfg, numbers::TAG_RUNNABLE + j));
    }
    size
}

// The fields of all kinds, in the order of their tags.
fn write_parts(buf: &mut [u8], at: usize, cfg: Config) -> Wrote
    ensures { Written buf.old at (parts_bytes cfg) result buf.new }
{
    if !has_room(buf.len(), at, parts_size(cfg) as usize) {
        return Wrote::Refused(numbers::NO_ROOM);
    }
    let mut next = at;
    for j in 0..numbers::PART_KINDS {
        write_kind(buf, next, cfg, numbers::TAG_RUNNABLE + j);
        next += kind_size(cfg, numbers::TAG_RUNNABLE + j) as usize;
    }
    Wrote::To(next)
}

// The text of a configuration written from the start of a buffer: 1 for an unsound configuration, then 27 where it does not fit.
pub fn write_config(buf: &mut [u8], cfg: Config) -> Wrote
    ensures value { result ≡ config_to buf.old cfg }
    ensures buf_after { buf.new ≡ config_written buf.old cfg }
{
    if !entries::config_sound(cfg) {
        return Wrote::Refused(numbers::NOT_SOUND);
    }
    let size = parts_size(cfg) as usize;
    if buf.len() < size + 7 {
        return Wrote::Refused(numbers::NO_ROOM);
    }
    wire::write(buf, 0, &[numbers::TAG_EDITION, 0, 1, cfg.edition]);
    write_parts(buf, 4, cfg);
    wire::write(buf, size + 4, &[numbers::TAG_END, 0, 0])
}
