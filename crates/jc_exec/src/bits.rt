//! Truth values, eight to a byte.
ghost use Rattle.std.specs.Prelude.{◌≡◌, ◌+◌, ◌*◌, ◌/◌, ◌%◌, ◌<◌, ◌≤◌, ◌^◌, ◌++◌, ◌∷◌, [], ◌==◌, not, false, length, slice_index_or, OnOk, IfOk};
ghost use Rattle.std.specs.List.{list_any};
ghost use Rattle.jc_exec.specs.Packed.{unpack, low_first, packed, joined_bytes};
ghost use Rattle.jc_exec.specs.Union.{either_bits};

use jc_bytes::{List, Memory, are_bytes};
use std::alloc::{AllocError, Global};
use std::marker::Model;

/// Truth values, of which eight are held in a byte.
#[derive(Debug, Drop)]
pub struct Bits {
    count: usize,
    bytes: Vec<u8>,
}

impl Model for Bits {
    ghost use Rattle.std.specs.Prelude.{◌≡◌, Bool, List};
    ghost use Rattle.jc_exec.specs.Packed.{unpack, packed};

    ghost Value = { List Bool };

    ghost view = { λ a. unpack a.count a.bytes.items };

    ghost invariant = { λ a. a.bytes.items ≡ packed (unpack a.count a.bytes.items) };
}

/// The number whose bits these are, the lowest first.
fn number_of(bits: &[bool]) -> u8
    requires { length bits.now ≤ 8 }
    ensures value { result ≡ low_first bits.now }
    ensures bound { result < 2 ^ length bits.now }
{
    match bits {
        [] => 0,
        [first, rest @ ..] => u8::from(*first) + 2 * number_of(rest),
    }
}

/// The byte that has the bits, the lowest first.
fn byte_of(bits: &[bool]) -> u8
    requires { length bits.now ≤ 8 }
    ensures { result ≡ low_first bits.now }
{
    match bits {
        [a, b, c, d, e, f, g, h] => {
            let high = u8::from(*e) + 2 * (u8::from(*f) + 2 * (u8::from(*g) + 2 * u8::from(*h)));
            u8::from(*a) + 2 * (u8::from(*b) + 2 * (u8::from(*c) + 2 * (u8::from(*d) + 2 * high)))
        }
        _ => number_of(bits),
    }
}

/// Eight bits a byte, the last byte padded with 0.
fn put_bits(out: &mut Vec<u8>, bits: &[bool]) -> Result<(), AllocError>
    ensures { OnOk result (out.new.items ≡ out.old.items ++ packed bits.now) }
{
    let mut rest = bits;
    'packing: while !rest.is_empty() {
        let (eight, after) = rest.split_at(rest.len().min(8));
        out.push(byte_of(eight))?;
        rest = after;
    }
    Ok(())
}

/// The bits of a byte, the lowest first.
#[tactic(auto, unfolding(crate::specs::Packed::unpack))]
fn eight_bits(byte: u8) -> [bool; 8]
    ensures { result ≡ unpack 8 (byte ∷ []) }
{
    [
        byte % 2 == 1,
        byte / 2 % 2 == 1,
        byte / 4 % 2 == 1,
        byte / 8 % 2 == 1,
        byte / 16 % 2 == 1,
        byte / 32 % 2 == 1,
        byte / 64 % 2 == 1,
        byte / 128 % 2 == 1,
    ]
}

/// The first bits of the bytes, the lowest of each byte first.
fn first_bits(alloc: Global, bytes: &[u8], count: usize) -> Result<List<bool>, AllocError>
    requires { count ≤ 8 * length bytes.now }
    ensures { IfOk result (λ bits. bits ≡ unpack count bytes.now) }
{
    let mut bits = Vec::with_capacity(alloc, bytes.len().saturating_mul(8))?;
    'unpacking: for byte in bytes {
        bits.extend_from_slice(&eight_bits(*byte))?;
    }
    bits.truncate(count);
    Ok(List::from_vec(bits))
}

/// The first bits of a byte.
fn low_bits(byte: u8, count: u32) -> u8
    requires { count < 8 }
    ensures { result ≡ byte % 2 ^ count }
{
    byte & ((1 << count) - 1)
}

/// A copy of the bytes with so many bits, the others 0.
fn own_bytes(alloc: Global, bytes: &[u8], count: u32) -> Result<Vec<u8>, AllocError>
    requires { length bytes.now ≡ (count + 7) / 8 }
    ensures { IfOk result (λ own. own.items ≡ packed (unpack count bytes.now)) }
{
    are_bytes(bytes);
    let whole = (count / 8) as usize;
    let mut own = Vec::with_capacity(alloc, bytes.len())?;
    own.extend_from_slice(&bytes[..whole])?;
    if whole < bytes.len() {
        own.push(low_bits(bytes[whole], count % 8))?;
    }
    Ok(own)
}

/// Whether a byte is not 0.
fn has_some(bytes: &[u8]) -> bool
    ensures { result ≡ list_any (λ b. not (b == 0)) bytes.now }
{
    bytes.iter().any(|byte| *byte != 0)
}

/// Sets the bits of the bytes that are set in the others.
fn join_bytes(bytes: &mut [u8], others: &[u8])
    requires { length bytes.old ≡ length others.now }
    ensures { bytes.new ≡ joined_bytes bytes.old others.now }
{
    'joining: for k in 0..bytes.len() {
        bytes[k] = bytes[k] | others[k];
    }
}

impl Bits {
    /// These truth values.
    ///
    /// # Errors
    ///
    /// `Memory`, where memory is refused.
    pub fn new(alloc: Global, bits: &[bool]) -> Result<Bits, Memory>
        ensures { IfOk result (λ packed. packed ≡ bits.now) }
    {
        let mut bytes = Vec::with_capacity(alloc, bits.len().div_ceil(8))?;
        put_bits(&mut bytes, bits)?;
        Ok(Bits {
            count: bits.len(),
            bytes,
        })
    }

    /// The first bits of the bytes, the lowest of each byte first. What pads the last byte is dropped.
    pub(crate) fn of_bytes(alloc: Global, bytes: &[u8], count: u32) -> Result<Bits, AllocError>
        requires { length bytes.now ≡ (count + 7) / 8 }
        ensures { IfOk result (λ bits. bits ≡ unpack count bytes.now) }
    {
        Ok(Bits {
            count: count as usize,
            bytes: own_bytes(alloc, bytes, count)?,
        })
    }

    /// A copy of truth values.
    pub(crate) fn copy_of(alloc: Global, bits: &Bits) -> Result<Bits, AllocError>
        ensures { IfOk result (λ copy. copy ≡ bits.now) }
    {
        Ok(Bits {
            count: bits.count,
            bytes: Vec::from_slice(alloc, &bits.bytes)?,
        })
    }

    /// Whether the truth value at a place is true. Behind the last one it is false.
    pub fn get(&self, i: usize) -> bool
        ensures { result ≡ slice_index_or self.now i false }
    {
        i < self.count && (self.bytes[i / 8] >> (i % 8)) % 2 == 1
    }

    /// How many there are.
    pub fn len(&self) -> usize
        ensures { result ≡ length self.now }
    {
        self.count
    }

    /// Each in a place of its own.
    ///
    /// # Errors
    ///
    /// `Memory`, where memory is refused.
    pub fn unpacked(&self, alloc: Global) -> Result<List<bool>, Memory>
        ensures { IfOk result (λ bits. bits ≡ self.now) }
    {
        Ok(first_bits(alloc, &self.bytes, self.count)?)
    }

    /// Eight to a byte, the lowest bit of each byte first, the last byte padded with 0.
    pub(crate) fn bytes(&self) -> &[u8]
        ensures { result.now ≡ packed self.now }
    {
        &self.bytes
    }

    /// Whether one is true.
    pub(crate) fn has_true(&self) -> bool
        ensures { result ≡ list_any (λ b. b) self.now }
    {
        has_some(&self.bytes)
    }

    /// Sets those that are true in the others.
    pub(crate) fn join(&mut self, others: &Bits)
        requires { length self.old ≡ length others.now }
        ensures { self.new ≡ either_bits self.old others.now }
    {
        join_bytes(&mut self.bytes, &others.bytes);
    }
}
