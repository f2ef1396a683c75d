ghost use Rattle.std.specs.Prelude.{◌≡◌, ◌+◌, ◌≤◌, ◌++◌, true, [], length, is_ok, IfOk, vec_len, vec_capacity};
ghost use Rattle.packed.specs.Packing.{groups, packed_entry, packed};

use cdf::Entry;
use record::Sink;
use std::alloc::{AllocError, Global};

// How many groups of seven bits a number takes.
fn groups_len(n: u16) -> usize
    ensures { result ≡ length (groups n) }
{
    match n {
        0..128 => 1,
        128..16384 => 2,
        _ => 3,
    }
}

/// How many bytes an entry takes where it is packed.
pub fn packed_len(e: Entry) -> usize
    ensures value { result ≡ length (packed_entry e) }
    ensures most { result ≤ 12 }
{
    groups_len(e.s.into()) + groups_len(e.n.into()) + groups_len(e.fl) + groups_len(e.fh)
}

/// How many bytes all entries of a sink take where they are packed.
pub fn packed_bytes<S: Sink>(sink: &S) -> usize
    ensures { result ≡ length (packed (S.Sink.list sink.now)) }
{
    (0..sink.count())
        .filter_map(|i| sink.entry(i).ok())
        .map(packed_len)
        .sum()
}

// Appends a number, where its bytes are reserved.
fn push_number(bytes: &mut Vec<u8>, n: u16)
    requires { vec_len bytes.old + length (groups n) ≤ vec_capacity bytes.old }
    ensures items { bytes.new.items ≡ bytes.old.items ++ groups n }
    ensures capacity { vec_capacity bytes.new ≡ vec_capacity bytes.old }
{
    match n {
        0..128 => bytes.push_reserved(n as u8),
        128..16384 => {
            bytes.push_reserved((128 + n % 128) as u8);
            bytes.push_reserved((n / 128) as u8);
        }
        _ => {
            bytes.push_reserved((128 + n % 128) as u8);
            bytes.push_reserved((128 + n / 128 % 128) as u8);
            bytes.push_reserved((n / 16384) as u8);
        }
    }
}

// Appends an entry, where its bytes are reserved.
pub(crate) fn push_entry(bytes: &mut Vec<u8>, e: Entry)
    requires { vec_len bytes.old + length (packed_entry e) ≤ vec_capacity bytes.old }
    ensures items { bytes.new.items ≡ bytes.old.items ++ packed_entry e }
    ensures capacity { vec_capacity bytes.new ≡ vec_capacity bytes.old }
{
    push_number(bytes, e.s.into());
    push_number(bytes, e.n.into());
    push_number(bytes, e.fl);
    push_number(bytes, e.fh);
}

/// The entries of a sink, packed, in memory for just so many bytes. No entries take none, so that it cannot fail.
pub fn pack<S: Sink>(heap: Global, sink: &S) -> Result<Vec<u8>, AllocError>
    ensures value { IfOk result (λ v. v.items ≡ packed (S.Sink.list sink.now)) }
    ensures memory { IfOk result (λ v. vec_capacity v ≡ vec_len v) }
    ensures without { S.Sink.list sink.now ≡ [] → is_ok result ≡ true }
{
    let mut bytes = Vec::with_capacity(heap, packed_bytes(sink))?;
    for i in 0..sink.count() {
        if let Ok(e) = sink.entry(i) {
            push_entry(&mut bytes, e);
        }
    }
    Ok(bytes)
}
