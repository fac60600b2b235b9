// The table of loaded documents in one lent run of bytes: a directory, and a slot of fixed size for each document. Finding a document and its slot, allocating the first free slot, removing a document with all beneath it.
#![tactic(auto)]

ghost use Rattle.std.specs.Prelude.{◌≡◌, ◌+◌, ◌^◌, ◌≤◌, ◌<◌, length, take};
ghost use Rattle.ascii.specs.Bytes.{pick};
ghost use Rattle.writing.specs.Writing.{with_text};
ghost use Rattle.limits.specs.Limits.{document_limit, last_serial};
ghost use Rattle.document_model.specs.Model.{values_from, is_at_or_beneath};
ghost use Rattle.document_records.specs.Slots.{slot_bytes};
ghost use Rattle.document_table.specs.Layout.{slot_numbers_place, table_bytes, count_in, last_in, serial_at, slot_number, slot_place, doc_at, new_run, pushed, can_push, moved};
ghost use Rattle.document_table.specs.Tables.{Sound, Ascends, IsFound, IsSlot, halved, Near, AreSerials, IsRemoved};

use document_records::{SLOT_BYTES, Slot};
use lent_bytes::NUMBER;
use limits::DOCUMENTS;

// Where the parts of the table stand: a mark, which names the version of this layout; how many documents there are; the last serial that was given; the serials, ascending; the number of each one's slot,
// and past them those of the free slots; the slots.
const MARK: usize = 0;

const MARK_BYTES: usize = 16;

const COUNT: usize = MARK + MARK_BYTES;

const LAST: usize = COUNT + NUMBER;

const SERIALS: usize = LAST + NUMBER;

const SLOT_NUMBERS: usize = SERIALS + NUMBER * DOCUMENTS;

const SLOTS: usize = SLOT_NUMBERS + DOCUMENTS;

// Bytes of a table: the length that a lent run must have.
pub const TABLE_BYTES: usize = SLOTS + SLOT_BYTES * DOCUMENTS;

// Serials, the first `count` of `list`; after them 0: there is no heap for a Vec.
#[derive(Clone, Copy)]
pub struct Serials {
    pub list: [u32; DOCUMENTS],
    pub count: usize,
    ghost within: { count ≤ document_limit },
}

impl Serials {
    pub fn as_slice(&self) -> &[u32]
        ensures { result.now ≡ take self.now.count self.now.list }
    {
        &self.list[..self.count]
    }
}

// A table in a lent run.
#[derive(Clone, Copy)]
pub struct Table<'a> {
    pub run: &'a [u8],
    ghost sound: { Sound run.now },
}

impl<'a> Table<'a> {
    // How many documents are loaded.
    pub fn count(&self) -> usize
        ensures { result ≡ count_in self.now.run.now }
    {
        lent_bytes::number(self.run, COUNT) as usize
    }

    // The last serial that was given; 0 where none was.
    pub fn last(&self) -> u32
        ensures { result ≡ last_in self.now.run.now }
    {
        lent_bytes::number(self.run, LAST)
    }

    // The serial of the document at a place.
    fn serial_at(&self, i: usize) -> u32
        requires { i < document_limit }
        ensures { result ≡ serial_at self.now.run.now i }
    {
        lent_bytes::number(self.run, SERIALS + NUMBER * i)
    }

    // A step of the binary search.
    fn halved(&self, n: usize, serial: u32, at: usize, half: usize) -> usize
        requires { at + half < document_limit }
        ensures { (result ≡ halved self.now.run.now n serial at half) × (result ≤ at + half) }
    {
        let mid = at + half;
        let s = self.serial_at(mid);
        if (mid < n) & (s <= serial) { mid } else { at }
    }

    // The one place where a serial can stand, by binary search.
    fn nearest(&self, n: usize, serial: u32) -> usize
        requires { Ascends self.now.run.now × (n ≡ count_in self.now.run.now) }
        ensures { Near self.now.run.now n serial result 1 × (result < document_limit) }
    {
        // halved by hand: the serials are bytes of the run, and the library searches a slice of numbers
        let mut at: usize = 0;
        let mut width = DOCUMENTS;
        while 1 < width {
            let half = width / 2;
            at = self.halved(n, serial, at, half);
            width -= half;
        }
        at
    }

    // The place of the document with a serial.
    pub fn find(&self, serial: u32) -> Option<usize>
        requires { Ascends self.now.run.now }
        ensures { IsFound self.now.run.now serial result }
    {
        let n = self.count();
        let i = self.nearest(n, serial);
        let s = self.serial_at(i);
        if (i < n) & (s == serial) {
            Some(i)
        } else {
            None
        }
    }

    // Where the slot of a place starts; a place past the documents has a free slot.
    pub fn slot_place(&self, i: usize) -> usize
        requires { i < document_limit }
        ensures { (result ≡ slot_place (slot_number self.now.run.now i)) × (result + slot_bytes ≤ length self.now.run.now) }
    {
        SLOTS + SLOT_BYTES * usize::from(self.run[SLOT_NUMBERS + i])
    }

    // The slot of the document at a place.
    pub fn slot(&self, i: usize) -> Slot<'a>
        requires { i < count_in self.now.run.now }
        ensures { IsSlot self.now.run.now i result.bytes.now }
    {
        let bytes = lent_bytes::part(self.run, self.slot_place(i), SLOT_BYTES);
        Slot { bytes }
    }

    // The serials beneath a serial, ascending.
    pub fn serials_beneath(&self, serial: u32) -> Serials
        ensures { AreSerials self.now.run.now serial result.count result.list }
    {
        let mut list = [0u32; DOCUMENTS];
        let mut k: usize = 0;
        let n = self.count();
        for i in 0..n {
            if self.slot(i).is_beneath(serial) {
                list[k] = self.serial_at(i);
                k += 1;
            }
        }
        Serials { list, count: k }
    }
}

// Every slot is free, in order.
fn free_slots(run: &mut [u8])
    requires { table_bytes ≤ length run.old }
    ensures { run.new ≡ with_text run.old slot_numbers_place (values_from (λ n. n) 0 document_limit) }
{
    for i in 0..DOCUMENTS {
        lent_bytes::put_one(run, SLOT_NUMBERS + i, i as u8);
    }
}

// The functions that write take the run and no `Table`: that keeps what holds of a run, and here the run changes.

// "A new table is empty."
pub fn clear(run: &mut [u8])
    requires { table_bytes ≤ length run.old }
    ensures { run.new ≡ new_run run.old }
{
    lent_bytes::put_text(run, MARK, b"flourviol-table1");
    lent_bytes::put_number(run, COUNT, 0);
    lent_bytes::put_number(run, LAST, 0);
    free_slots(run);
}

// The first free slot is given to the document with the next serial.
fn add_entry(run: &mut [u8])
    requires { (table_bytes ≤ length run.old) × (count_in run.old < document_limit) × (last_in run.old < last_serial) }
    ensures { run.new ≡ pushed run.old }
{
    let n = lent_bytes::number(run, COUNT);
    let next = lent_bytes::number(run, LAST) + 1;
    lent_bytes::put_number(run, SERIALS + NUMBER * (n as usize), next);
    lent_bytes::put_number(run, LAST, next);
    lent_bytes::put_number(run, COUNT, n + 1);
}

// The same, where there is room for one more and a serial; else nothing.
pub fn push(run: &mut [u8])
    requires { table_bytes ≤ length run.old }
    ensures { run.new ≡ pick (can_push run.old) (pushed run.old) run.old }
{
    let n = lent_bytes::number(run, COUNT) as usize;
    let last = lent_bytes::number(run, LAST);
    if (n < DOCUMENTS) & (last < limits::LAST_SERIAL) {
        add_entry(run);
    }
}

// The entry at a place changes places with an earlier one; of the serials the later one stands at both.
fn move_entry(run: &mut [u8], to: usize, from: usize)
    requires { (table_bytes ≤ length run.old) × (to ≤ from) × (from < document_limit) }
    ensures { (run.new ≡ moved run.old to from) × (serial_at run.old from < 2 ^ 32) }
{
    let s = lent_bytes::number(run, SERIALS + NUMBER * from);
    let a = run[SLOT_NUMBERS + from];
    let b = run[SLOT_NUMBERS + to];
    lent_bytes::put_number(run, SERIALS + NUMBER * to, s);
    lent_bytes::put_one(run, SLOT_NUMBERS + to, a);
    lent_bytes::put_one(run, SLOT_NUMBERS + from, b);
}

// Whether the document at a place has a serial or is beneath it.
fn goes(run: &[u8], i: usize, serial: u32) -> bool
    requires { Sound run.now × (i < count_in run.now) }
    ensures { result ≡ is_at_or_beneath serial (doc_at run.now i).identity }
{
    let table = Table { run };
    (table.serial_at(i) == serial) | table.slot(i).is_beneath(serial)
}

// A document is removed, and all beneath it; how many they are. The entries of the others move up, and no slot changes.
pub fn remove(run: &mut [u8], serial: u32) -> usize
    requires { Sound run.old }
    ensures { IsRemoved run.old serial run.new result }
{
    let n = lent_bytes::number(run, COUNT) as usize;
    let mut k: usize = 0;
    for i in 0..n {
        if !goes(run, i, serial) {
            move_entry(run, k, i);
            k += 1;
        }
    }
    lent_bytes::put_number(run, COUNT, k as u32);
    n - k
}
