//! The text of records, and the report of a run.
ghost use Rattle.std.specs.Prelude.{◌≡◌, ◌++◌, length, OnOk, IfOk};
ghost use Rattle.std.specs.List.{flat_map};
ghost use Rattle.run_records.specs.Text.{IsReport, life_text, block_text, place_text, hit_text, cause_text, record_text, line_of, value_line};

use crate::order::sorted;
use graph_model::{Cause, Found, Hit, Key, Record, Text};
use std::alloc::{AllocError, Global};
use text_lines::{put, put_field, put_signed};

// Room for a usual line: the text is moved only where many lines are longer.
const LINE_ROOM: usize = 32;

fn put_life(text: &mut Vec<u8>, words: &str, key: Key, life: u32) -> Result<(), AllocError>
    ensures { OnOk result (text.new.items ≡ text.old.items ++ life_text words.now key life) }
{
    put_field(text, words, key.0)?;
    put_field(text, " life ", life as u64)
}

fn put_block(text: &mut Vec<u8>, words: &str, block: u32, version: u32) -> Result<(), AllocError>
    ensures { OnOk result (text.new.items ≡ text.old.items ++ block_text words.now block version) }
{
    put_field(text, words, block as u64)?;
    put_field(text, " version ", version as u64)
}

fn put_place(text: &mut Vec<u8>, place: u32) -> Result<(), AllocError>
    ensures { OnOk result (text.new.items ≡ text.old.items ++ place_text place) }
{
    if place == 40 {
        put(text, " self")
    } else {
        put_field(text, " place ", place as u64)
    }
}

fn put_hit(text: &mut Vec<u8>, hit: Hit) -> Result<(), AllocError>
    ensures { OnOk result (text.new.items ≡ text.old.items ++ hit_text hit) }
{
    match hit {
        Hit::Descriptor => put(text, " descriptor"),
        Hit::Notify { word } => put_field(text, " notify ", word as u64),
        Hit::Block { block, version } => put_block(text, " block ", block, version),
    }
}

fn put_cause(text: &mut Vec<u8>, cause: &Cause) -> Result<(), AllocError>
    ensures { OnOk result (text.new.items ≡ text.old.items ++ cause_text cause.now) }
{
    match *cause {
        Cause::Descriptor => put(text, "descriptor"),
        Cause::Notify => put(text, "notify"),
        Cause::Block {
            block,
            version,
            found,
        } => {
            put_block(text, "block ", block, version)?;
            match found {
                Found::Struck { version: _ } => put(text, " struck"),
                Found::Other { version: last } => put_field(text, " found ", last as u64),
            }
        }
    }
}

fn put_record(text: &mut Vec<u8>, event: &Record) -> Result<(), AllocError>
    ensures { OnOk result (text.new.items ≡ text.old.items ++ record_text event.now) }
{
    match *event {
        Record::Created { key } => put_field(text, "created ", key.0),
        Record::Spent { key, life, place } => {
            put_life(text, "spent ", key, life)?;
            put_place(text, place)
        }
        Record::Computed { key, life } => put_life(text, "computed ", key, life),
        Record::Written {
            key,
            life,
            block,
            version,
        } => {
            put_life(text, "written ", key, life)?;
            put_block(text, " block ", block, version)
        }
        Record::Closed { key, life, word } => {
            put_life(text, "closed ", key, life)?;
            put_field(text, " word ", word as u64)
        }
        Record::Struck { key, life, hit } => {
            put_life(text, "struck ", key, life)?;
            put_hit(text, hit)
        }
        Record::Replaced {
            key,
            life,
            ref cause,
        } => {
            put_life(text, "replaced ", key, life)?;
            put(text, " because ")?;
            put_cause(text, cause)
        }
    }
}

fn put_line(text: &mut Vec<u8>, event: &Record) -> Result<(), AllocError>
    ensures { OnOk result (text.new.items ≡ text.old.items ++ line_of event.now) }
{
    put_record(text, event)?;
    put(text, "\n")
}

fn put_value(text: &mut Vec<u8>, value: i64) -> Result<(), AllocError>
    ensures { OnOk result (text.new.items ≡ text.old.items ++ value_line value) }
{
    put(text, "value ")?;
    put_signed(text, value)?;
    put(text, "\n")
}

fn put_lines(text: &mut Vec<u8>, records: &[Record]) -> Result<(), AllocError>
    ensures { OnOk result (text.new.items ≡ text.old.items ++ flat_map line_of records.now) }
{
    for event in records {
        put_line(text, event)?;
    }
    Ok(())
}

/// Why a life was replaced.
pub fn cause_text(alloc: Global, cause: &Cause) -> Result<Text, AllocError>
    ensures { IfOk result (λ text. text ≡ cause_text cause.now) }
{
    let mut text = Vec::new(alloc);
    put_cause(&mut text, cause)?;
    Ok(Text::from_vec(text))
}

/// The value's line and, where they are asked for, the records' lines in the order of print.
pub fn report(
    alloc: Global,
    value: &[i64],
    records: &[Record],
    detail: bool,
) -> Result<Text, AllocError>
    requires { length value.now ≡ 1 }
    ensures { IfOk result (IsReport value.now records.now detail) }
{
    if detail {
        let list = sorted(alloc, records)?;
        let room = list.len().saturating_add(1).saturating_mul(LINE_ROOM);
        let mut text = Vec::with_capacity(alloc, room)?;
        put_value(&mut text, value[0])?;
        put_lines(&mut text, list.as_slice())?;
        Ok(Text::from_vec(text))
    } else {
        let mut text = Vec::with_capacity(alloc, LINE_ROOM)?;
        put_value(&mut text, value[0])?;
        Ok(Text::from_vec(text))
    }
}
