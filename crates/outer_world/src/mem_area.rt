ghost use Rattle.std.specs.Prelude.{◌≡◌, ◌≢◌, None, [], ◌+◌, ◌≤◌, ◌++◌, length, take, drop, vec_len, vec_capacity, if◌then◌else◌, OnOk, OnErr};
ghost use Rattle.outer_world.specs.KeepsArea.{BeginsWithin, changed_contents};
ghost use Rattle.outer_world.specs.MemArea.{apart_or, fresh_contents};
ghost use Rattle.outer_world.specs.Overwritten.{overwritten};

use crate::change::Change;
use std::alloc::{AllocError, Global};
use std::marker::Model;

/// An area in memory: its bytes, those that it had at the start, and what the last sync made durable.
#[derive(Debug, Drop)]
pub(crate) struct MemArea {
    bytes: Vec<u8>,
    // The bytes at the start, where they were set apart; else they are those of now.
    start: Option<Vec<u8>>,
    // So many bytes in front are durable, and then come those behind them that the last sync made durable.
    durable: usize,
    behind: Vec<u8>,
}

impl Model for MemArea {
    ghost use Rattle.std.specs.Prelude.{◌+◌, ◌≤◌, ◌++◌, take, length, vec_capacity};
    ghost use Rattle.outer_world.specs.MemArea.{AreaContents, apart_or};

    ghost Value = { AreaContents };

    ghost view = { λ area. record {
      start = apart_or area.start area.bytes.items;
      seen = area.bytes.items;
      synced = take area.durable area.bytes.items ++ area.behind.items;
    } };

    ghost invariant = { λ area. (area.durable ≤ length area.bytes.items)
        × (area.durable + length area.behind.items ≤ vec_capacity area.bytes) };
}

impl MemArea {
    /// An area without bytes. Takes no memory.
    pub(crate) fn new(alloc: Global) -> MemArea
        ensures { result ≡ fresh_contents [] }
    {
        MemArea {
            bytes: Vec::new(alloc),
            start: None,
            durable: 0,
            behind: Vec::new(alloc),
        }
    }

    /// Lends what it holds. Takes no memory.
    pub(crate) fn bytes(&self) -> &[u8]
        ensures { result.now ≡ self.now.seen }
    {
        self.bytes.as_slice()
    }

    /// Makes a change.
    pub(crate) fn change(&mut self, alloc: Global, change: &Change) -> Result<(), AllocError>
        requires { BeginsWithin change.now self.old.seen }
        ensures changed { OnOk result (self.new ≡ changed_contents self.old change.now) }
        ensures unchanged { OnErr result (self.new ≡ self.old) }
    {
        match change {
            Change::Write(place, bytes) => self.overwrite(alloc, *place as usize, bytes.items()),
            Change::Cut(len) => self.cut(alloc, *len as usize),
            Change::Sync => {
                self.sync();
                Ok(())
            }
        }
    }

    /// Writes the bytes at a place, over what stands there and past the end.
    fn overwrite(&mut self, alloc: Global, place: usize, bytes: &[u8]) -> Result<(), AllocError>
        requires { place ≤ length self.old.seen }
        ensures written { OnOk result (self.new ≡ record self.old { seen = overwritten self.old.seen place bytes.now }) }
        ensures unchanged { OnErr result (self.new ≡ self.old) }
    {
        set_apart(alloc, &mut self.start, &self.bytes)?;
        loosen(
            alloc,
            &self.bytes,
            &mut self.durable,
            &mut self.behind,
            place,
        )?;
        overwrite_bytes(&mut self.bytes, place, bytes)
    }

    /// Cuts it to a length.
    fn cut(&mut self, alloc: Global, len: usize) -> Result<(), AllocError>
        requires { len ≤ length self.old.seen }
        ensures cut { OnOk result (self.new ≡ record self.old { seen = take len self.old.seen }) }
        ensures unchanged { OnErr result (self.new ≡ self.old) }
    {
        set_apart(alloc, &mut self.start, &self.bytes)?;
        loosen(alloc, &self.bytes, &mut self.durable, &mut self.behind, len)?;
        self.bytes.truncate(len);
        Ok(())
    }

    /// Makes durable what it holds. Takes no memory.
    fn sync(&mut self)
        ensures { self.new ≡ record self.old { synced = self.old.seen } }
    {
        self.durable = self.bytes.len();
        self.behind.truncate(0);
    }

    /// The area after a crash that kept all that wasn't durable, or lost it. Takes no memory.
    pub(crate) fn crash(self, kept: bool) -> MemArea
        ensures { result ≡ fresh_contents (if kept then self.seen else self.synced) }
    {
        let MemArea {
            mut bytes,
            start: _,
            durable,
            mut behind,
        } = self;
        if !kept {
            put_back(&mut bytes, durable, &behind);
        }
        behind.truncate(0);
        let durable = bytes.len();
        MemArea {
            bytes,
            start: None,
            durable,
            behind,
        }
    }
}

/// Sets the bytes apart as the start, where that wasn't done yet.
fn set_apart(alloc: Global, start: &mut Option<Vec<u8>>, bytes: &Vec<u8>) -> Result<(), AllocError>
    ensures same { apart_or start.new bytes.now.items ≡ apart_or start.old bytes.now.items }
    ensures apart { OnOk result (start.new ≢ None) }
{
    if start.is_none() {
        *start = Some(bytes.to_vec(alloc)?);
    }
    Ok(())
}

/// Keeps apart the durable bytes from a place on, so that those in front of it alone are counted.
fn loosen(
    alloc: Global,
    bytes: &Vec<u8>,
    durable: &mut usize,
    behind: &mut Vec<u8>,
    place: usize,
) -> Result<(), AllocError>
    requires { durable.old ≤ vec_len bytes.now }
    ensures front { OnOk result (durable.new ≤ place) }
    ensures within { durable.new ≤ vec_len bytes.now }
    ensures long { durable.new + vec_len behind.new ≡ durable.old + vec_len behind.old }
    ensures same { take durable.new bytes.now.items ++ behind.new.items
        ≡ take durable.old bytes.now.items ++ behind.old.items }
{
    if place < *durable {
        let mut longer = bytes[place..*durable].to_vec(alloc)?;
        longer.extend_from_slice(behind.as_slice())?;
        *behind = longer;
        *durable = place;
    }
    Ok(())
}

/// Writes the bytes at a place, over what stands there and past the end. The capacity doesn't fall.
pub(crate) fn overwrite_bytes(
    bytes: &mut Vec<u8>,
    place: usize,
    piece: &[u8],
) -> Result<(), AllocError>
    requires { place ≤ vec_len bytes.old }
    ensures written { OnOk result (bytes.new.items ≡ overwritten bytes.old.items place piece.now) }
    ensures unchanged { OnErr result (bytes.new.items ≡ bytes.old.items) }
    ensures capacity { vec_capacity bytes.old ≤ vec_capacity bytes.new }
{
    let over = piece.len().min(bytes.len() - place);
    let (front, back) = piece.split_at(over);
    bytes.extend_from_slice(back)?;
    bytes[place..place + over].copy_from_slice(front);
    Ok(())
}

/// Puts these bytes behind so many of those in front, in the place of the others. Takes no memory.
fn put_back(bytes: &mut Vec<u8>, front: usize, behind: &[u8])
    requires within { front ≤ vec_len bytes.old }
    requires room { front + length behind.now ≤ vec_capacity bytes.old }
    ensures items { bytes.new.items ≡ take front bytes.old.items ++ behind.now }
{
    bytes.truncate(front);
    let _ = bytes.extend_from_slice(behind);
}
