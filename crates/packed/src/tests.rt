use crate::{
    PackedRecord, PackedSource, count_entries, pack, packed_bytes, packed_len, split_entry,
};
use av1::Refusal;
use record::{Entry, Sink, Source, SourceFault, WordRecord, WordSource};
use std::alloc::{AllocError, Global};
use std::test::Fail;

/// The entry of a first skip of 0, and its bytes.
const SKIP: Entry = Entry {
    s: 0,
    n: 2,
    fl: 32768,
    fh: 16384,
};

const SKIP_BYTES: [u8; 8] = [0x00, 0x02, 0x80, 0x80, 0x02, 0x80, 0x80, 0x01];

#[test]
fn a_first_skip_is_packed(rt: HostRuntime) -> Result<(), Fail> {
    let mut record = PackedRecord::new(rt.alloc(), 15)?;
    assert!(rt; record.count() == 0 && record.room() == 1 && record.bytes().is_empty());
    assert!(rt; record.put(SKIP) == Ok(()));
    assert!(rt; record.bytes() == SKIP_BYTES.as_slice());
    assert!(rt; record.count() == 1 && record.entry(0) == Ok(SKIP));
    assert!(rt; record.entry(1) == Err(Refusal::NoSuchEntry));
    Ok(())
}

#[test]
fn a_full_record_refuses(rt: HostRuntime) -> Result<(), Fail> {
    let mut record = PackedRecord::new(rt.alloc(), 15)?;
    assert!(rt; record.put(SKIP) == Ok(()));
    assert!(rt; record.room() == 0 && record.put(SKIP) == Err(Refusal::RecordFull));
    let no_entry = Entry { s: 2, ..SKIP };
    assert!(rt; record.put(no_entry) == Err(Refusal::NotAnEntry));
    assert!(rt; record.cut(2) == Err(Refusal::NoSuchEntry));
    assert!(rt; record.cut(0) == Ok(()));
    assert!(rt; record.room() == 1 && record.put(SKIP) == Ok(()));
    Ok(())
}

#[test]
fn at_most_so_many_bytes_are_used(rt: HostRuntime) -> Result<(), Fail> {
    let record = PackedRecord::new(rt.alloc(), usize::MAX)?;
    assert_eq!(rt; record.room(), 8_388_608);
    Ok(())
}

/// Numbers where one byte more begins, and how many bytes they take.
const LIMITS: [(u16, usize); 7] = [
    (0, 1),
    (127, 1),
    (128, 2),
    (16383, 2),
    (16384, 3),
    (32767, 3),
    (32768, 3),
];

#[test]
fn numbers_at_the_limits(rt: HostRuntime) -> Result<(), Fail> {
    let mut record = PackedRecord::new(rt.alloc(), 1000)?;
    for (fl, high) in LIMITS {
        for (fh, low) in LIMITS {
            let entry = Entry {
                s: 15,
                n: 16,
                fl,
                fh,
            };
            let place = record.count();
            if fh > fl {
                assert!(rt; record.put(entry) == Err(Refusal::NotAnEntry));
            } else {
                assert!(rt; record.put(entry) == Ok(()) && record.entry(place) == Ok(entry));
                assert_eq!(rt; packed_len(entry).checked_sub(high), Some(2 + low));
            }
        }
    }
    assert_eq!(rt; record.count(), 28);
    assert!(rt; count_entries(record.bytes()) == Ok(28));
    Ok(())
}

/// 56 entries with numbers at the limits.
fn sample(heap: Global) -> Result<WordRecord, AllocError> {
    let mut record = WordRecord::new(heap, 100)?;
    for (s, n) in [(0, 2), (15, 16)] {
        for (fl, _) in LIMITS {
            for (fh, _) in LIMITS {
                let _ = record.put(Entry { s, n, fl, fh });
            }
        }
    }
    Ok(record)
}

#[test]
fn a_word_record_is_packed(rt: HostRuntime) -> Result<(), Fail> {
    let words = sample(rt.alloc())?;
    let bytes = pack(rt.alloc(), &words)?;
    assert!(rt; bytes.len() == packed_bytes(&words) && bytes.len() > 300);
    let mut record = PackedRecord::new(rt.alloc(), 1000)?;
    for entry in words.entries() {
        assert!(rt; record.put(*entry) == Ok(()));
    }
    assert!(rt; record.bytes() == bytes.as_slice());
    assert!(rt; record.count() == 56 && packed_bytes(&record) == bytes.len());
    Ok(())
}

/// The first byte of the first entry that fails, by another reading of the rules: byte after byte, with the weight of
/// each group.
fn failing_byte(bytes: &[u8]) -> Option<usize> {
    let mut start = 0;
    let mut entry = (0, 0, 0, 0);
    let mut numbers = 0u8;
    let mut value = 0u32;
    let mut weight = 1u32;
    for (i, byte) in bytes.iter().enumerate() {
        let group = u32::from(*byte % 128);
        value = value.wrapping_add(group.wrapping_mul(weight));
        if *byte >= 128 {
            if weight == 16384 {
                return Some(start);
            }
            weight = weight.wrapping_mul(128);
            continue;
        }
        if group == 0 && weight > 1 {
            return Some(start);
        }
        entry = (entry.1, entry.2, entry.3, value);
        value = 0;
        weight = 1;
        numbers = numbers.wrapping_add(1);
        if numbers == 4 {
            let (s, n, fl, fh) = entry;
            if s >= n || !(2..=16).contains(&n) || fh > fl || fl > 32768 {
                return Some(start);
            }
            numbers = 0;
            start = i + 1;
        }
    }
    if start == bytes.len() {
        None
    } else {
        Some(start)
    }
}

/// Whether the bytes are refused where they should be, or are entries that are packed again as they were.
fn is_judged(record: &mut PackedRecord, bytes: &[u8]) -> bool {
    match (count_entries(bytes), failing_byte(bytes)) {
        (Err(Refusal::NotPacked { byte }), Some(start)) => byte == start,
        (Ok(count), None) => {
            let _ = record.cut(0);
            let mut rest = bytes;
            for _ in 0..count {
                if let Some((entry, behind)) = split_entry(rest) {
                    let _ = record.put(entry);
                    rest = behind;
                }
            }
            record.bytes() == bytes
        }
        _ => false,
    }
}

#[test]
fn every_changed_byte(rt: HostRuntime) -> Result<(), Fail> {
    let mut packed = pack(rt.alloc(), &sample(rt.alloc())?)?;
    let mut record = PackedRecord::new(rt.alloc(), 1000)?;
    assert!(rt; is_judged(&mut record, packed.as_slice()));
    let bytes = packed.as_mut_slice();
    for i in 0..bytes.len() {
        for mask in 1..=255 {
            bytes[i] ^= mask;
            assert!(rt; is_judged(&mut record, bytes), "byte {i}, mask {mask}");
            bytes[i] ^= mask;
        }
    }
    Ok(())
}

#[test]
fn bytes_cut_off_anywhere(rt: HostRuntime) -> Result<(), Fail> {
    let packed = pack(rt.alloc(), &sample(rt.alloc())?)?;
    let bytes = packed.as_slice();
    let mut record = PackedRecord::new(rt.alloc(), 1000)?;
    let mut whole = 0usize;
    for n in 0..bytes.len() {
        assert!(rt; is_judged(&mut record, &bytes[..n]), "{n} bytes");
        if count_entries(&bytes[..n]).is_ok() {
            whole = whole.wrapping_add(1);
        }
    }
    assert_eq!(rt; whole, 56);
    Ok(())
}

#[test]
fn bytes_from_outside(rt: HostRuntime) {
    assert!(rt; count_entries(&[]) == Ok(0));
    assert!(rt; count_entries(&SKIP_BYTES) == Ok(1));
    let more = [0x00, 0x02, 0x80, 0x80, 0x02, 0x80, 0x80, 0x01, 0x00];
    assert!(rt; count_entries(&more) == Err(Refusal::NotPacked { byte: 8 }));
    let longer = [0x80, 0x00, 0x02, 0x80, 0x80, 0x02, 0x80, 0x80, 0x01];
    assert!(rt; count_entries(&longer) == Err(Refusal::NotPacked { byte: 0 }));
    assert!(rt; PackedSource::new(&longer).is_err());
}

#[test]
fn no_bytes_are_a_source_at_its_end(rt: HostRuntime) {
    let Ok(mut source) = PackedSource::new(&[]) else {
        assert!(rt; false);
        return;
    };
    assert!(rt; source.next(&[16384, 0]) == Err(SourceFault::NoNextEntry { place: 0 }));
    assert!(rt; source.back(0) == Ok(()) && source.back(1) == Err(Refusal::NoSuchEntry));
}

#[test]
fn a_packed_source_answers_as_a_word_source(rt: HostRuntime) -> Result<(), Fail> {
    let mut words = WordRecord::new(rt.alloc(), 100)?;
    for (value, _) in LIMITS {
        let _ = words.put(Entry { fh: value, ..SKIP });
        let _ = words.put(Entry {
            s: 1,
            n: 2,
            fl: value,
            fh: 0,
        });
    }
    let packed = pack(rt.alloc(), &words)?;
    let mut one = WordSource::new(words.entries());
    let mut other = PackedSource::new(packed.as_slice()).ok().ok_or("packed")?;
    let mut random = 1u32;
    for _ in 0..2000 {
        random = random.wrapping_mul(1_103_515_245).wrapping_add(12345);
        let number = random >> 16;
        let place = one.place();
        let value = match words.entries().get(place) {
            Some(entry) if entry.s == 0 => entry.fh,
            Some(entry) => entry.fl,
            None => 0,
        };
        if number % 8 == 0 {
            let to = (number >> 3) as usize % place.saturating_add(2);
            assert!(rt; one.back(to) == other.back(to), "back to {to}");
        } else {
            let table = [value ^ u16::from(number % 8 == 1), 0];
            assert!(rt; one.next(&table) == other.next(&table), "next at {place}");
        }
        assert_eq!(rt; other.place(), one.place());
    }
    Ok(())
}
