// Finds the entry of a field by its number.
ghost use Rattle.std.specs.Prelude.{◌≡◌, ◌<◌, ◌≤◌, IfOk, length, slice_index};
ghost use Rattle.msg_layout.specs.Layout.{entry_among};
ghost use Rattle.msg_layout.specs.Find.{AreAscending, Tells};

use crate::entry::Entry;
use no_memory::NoMemory;
use std::alloc::Global;

// How many numbers a table of places reaches at most; the tag of such a number has at most two bytes.
const NEAR: u32 = 128;

// The entry of the field with this number: the table has the place of a small one, and others are searched for.
pub(crate) fn entry_by_number(entries: &[Entry], near: &[u16], number: u32) -> Option<Entry>
    requires ascending { AreAscending entries.now }
    requires near { Tells entries.now near.now entries.now }
    ensures { result ≡ entry_among entries.now number }
{
    if number as usize >= near.len() {
        return search(entries, number);
    }
    let place = near[number as usize] as usize;
    if place == 0 || place > entries.len() {
        return None;
    }
    Some(entries[place - 1])
}

// The entry with this number, by halving the entries that are left.
fn search(entries: &[Entry], number: u32) -> Option<Entry>
    requires { AreAscending entries.now }
    ensures { result ≡ entry_among entries.now number }
{
    let mut low = 0;
    let mut high = entries.len();
    while low < high {
        let middle = low + (high - low) / 2;
        let entry = entries[middle];
        if entry.field.number == number {
            return Some(entry);
        }
        if entry.field.number < number {
            low = middle + 1;
        } else {
            high = middle;
        }
    }
    None
}

// The table of the places of small numbers.
pub(crate) fn near_table(alloc: Global, entries: &[Entry]) -> Result<Vec<u16>, NoMemory>
    requires ascending { AreAscending entries.now }
    requires few { length entries.now ≤ 512 }
    ensures { IfOk result (λ near. Tells entries.now near.items entries.now) }
{
    let mut near = vec![in alloc; 0; reach(entries) as usize]?;
    for (i, entry) in entries.iter().enumerate() {
        let number = entry.field.number as usize;
        if number < near.len() {
            near[number] = i as u16 + 1;
        }
    }
    Ok(near)
}

// One more than the greatest number, or as many as a table reaches at most.
fn reach(entries: &[Entry]) -> u32 {
    match entries.last() {
        Some(entry) => entry.field.number.saturating_add(1).min(NEAR),
        None => 0,
    }
}
