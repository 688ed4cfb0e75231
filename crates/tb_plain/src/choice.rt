//! Which refusal of an event is reported.

ghost use Rattle.std.specs.Prelude.{◌≡◌, ◌<◌, ◌≤◌, ◌^◌, length, find, All, IfSome};
ghost use Rattle.std.specs.Option.{option_copied};
ghost use Rattle.std.specs.List.{list_any};
ghost use Rattle.tb_plain.specs.Sweep.{refuses_by, is_plain, rows_on, byte_by, row_by, reported_at, reported};
ghost use Rattle.tb_plain.specs.declared.row.PlainRow.{PlainRow};

use crate::row::PlainRow;
use crate::sweep::{Sweep, refusal};
use tb_perm::{Access, Report, Tag};

/// The report of an event, or none where no row refuses it: it names the least byte at which a row
/// refuses, and there the nearest tag on the path to the root that refuses, or else the least tag.
pub fn choose(
    rows: &[PlainRow],
    sweep: &Sweep,
    access: Access,
    size: u32,
    through: Tag,
) -> Option<Report>
    requires { All (λ (row : PlainRow). length row.states ≡ size) rows.now }
    ensures { result ≡ reported sweep.now access size rows.now through.0 }
{
    match refused_byte(rows, sweep, size) {
        Some(byte) => report_at(rows, sweep, access, byte, through),
        None => None,
    }
}

fn refused_byte(rows: &[PlainRow], sweep: &Sweep, size: u32) -> Option<u32>
    requires { All (λ (row : PlainRow). length row.states ≡ size) rows.now }
    ensures value { result ≡ byte_by sweep.now size rows.now }
    ensures within { IfSome result (λ byte. byte < size) }
{
    for byte in 0..size {
        if is_refused(rows, sweep, byte) {
            return Some(byte);
        }
    }
    None
}

fn is_refused(rows: &[PlainRow], sweep: &Sweep, byte: u32) -> bool
    requires { All (λ (row : PlainRow). byte < length row.states) rows.now }
    ensures { result ≡ list_any (refuses_by sweep.now byte) rows.now }
{
    for row in rows.iter() {
        if refuses(row, sweep, byte) {
            return true;
        }
    }
    false
}

fn refuses(row: &PlainRow, sweep: &Sweep, byte: u32) -> bool
    requires { byte < length row.now.states }
    ensures { result ≡ refuses_by sweep.now byte row.now }
{
    refusal(row, sweep, byte as usize).is_some()
}

fn report_at(
    rows: &[PlainRow],
    sweep: &Sweep,
    access: Access,
    byte: u32,
    through: Tag,
) -> Option<Report>
    requires { All (λ (row : PlainRow). byte < length row.states) rows.now }
    ensures { result ≡ reported_at sweep.now access rows.now through.0 byte }
{
    let row = blamed(rows, sweep, byte)?;
    let refusal = refusal(row, sweep, byte as usize)?;
    Some(Report {
        refusal,
        access,
        through,
        byte,
        tag: row.tag,
        perm: row.states.as_slice()[byte as usize].perm,
        made: row.made,
    })
}

fn blamed<'a>(rows: &'a [PlainRow], sweep: &Sweep, byte: u32) -> Option<&'a PlainRow>
    requires { All (λ (row : PlainRow). byte < length row.states) rows.now }
    ensures value { option_copied result ≡ row_by sweep.now rows.now byte }
    ensures within { IfSome result (λ row. byte < length row.now.states) }
{
    match nearest(rows, sweep, byte) {
        Some(row) => Some(row),
        None => least(rows, sweep, byte),
    }
}

/// The first tag on the path to the root that refuses.
fn nearest<'a>(rows: &'a [PlainRow], sweep: &Sweep, byte: u32) -> Option<&'a PlainRow>
    requires { All (λ (row : PlainRow). byte < length row.states) rows.now }
    ensures value { option_copied result ≡ find (refuses_by sweep.now byte) (rows_on sweep.now.path rows.now) }
    ensures within { IfSome result (λ row. byte < length row.now.states) }
{
    for key in sweep.path.as_slice().iter() {
        if let Some(row) = row_of(rows, *key) {
            if refuses(row, sweep, byte) {
                return Some(row);
            }
        }
    }
    None
}

/// The first row that refuses.
fn least<'a>(rows: &'a [PlainRow], sweep: &Sweep, byte: u32) -> Option<&'a PlainRow>
    requires { All (λ (row : PlainRow). byte < length row.states) rows.now }
    ensures value { option_copied result ≡ find (refuses_by sweep.now byte) rows.now }
    ensures within { IfSome result (λ row. byte < length row.now.states) }
{
    for row in rows.iter() {
        if refuses(row, sweep, byte) {
            return Some(row);
        }
    }
    None
}

/// The row of a tag.
pub fn row_of(rows: &[PlainRow], key: u64) -> Option<&PlainRow>
    ensures { option_copied result ≡ find (is_plain key) rows.now }
{
    for row in rows.iter() {
        if row.tag.0 == key {
            return Some(row);
        }
    }
    None
}
