//! Names, vectors and the lengths of frames.

use crate::first_failure::tell;
use cpa_units::{Bound, Name, NameFault, TaskId, Vector, frame_bits};
use std::test::Fail;

fn needs_shared<T: Send + Sync>(_value: &T) {}

#[test]
fn names_have_a_form(rt: HostRuntime) -> Result<(), Fail> {
    let alloc = rt.alloc();
    let mut wrong = None;
    for text in ["a", "Brake-by-wire_2.x", "0"] {
        let name = Name::read(alloc, text.as_bytes())?;
        needs_shared(&name);
        wrong = tell(wrong, text, name.bytes() == text.as_bytes());
    }
    for text in ["", "a b", "é", "a\n"] {
        let fault = Name::read(alloc, text.as_bytes()).err();
        wrong = tell(wrong, text, fault == Some(NameFault::Form));
    }
    let longest = [b'x'; 65];
    let is_read = Name::read(alloc, &longest[..64]).is_ok();
    wrong = tell(wrong, "64 bytes", is_read);
    wrong = tell(wrong, "65 bytes", Name::read(alloc, &longest).is_err());
    assert!(rt; wrong.is_none(), "{wrong:?}");
    Ok(())
}

#[test]
fn vectors_are_copied_and_changed(rt: HostRuntime) -> Result<(), Fail> {
    let alloc = rt.alloc();
    let mut first = Vector::filled(alloc, 2, Bound::Overload)?;
    needs_shared(&first);
    first.set(TaskId(1), Bound::Within(7));
    let second = first.copy(alloc)?;
    let bounds = (second.get(TaskId(0)), second.get(TaskId(1)));
    assert!(rt; second.len() == 2 && bounds == (Bound::Overload, Bound::Within(7)));
    Ok(())
}

/// Bounds are ordered as numbers, with `Overload` last.
#[test]
fn bounds_are_ordered(rt: HostRuntime) {
    let greatest = Bound::Within(10_000_000);
    assert!(rt;
        Bound::Within(1) < Bound::Within(2)
            && Bound::Within(2) < greatest
            && greatest < Bound::Overload
    );
}

#[test]
fn frames_have_lengths(rt: HostRuntime) {
    let mut wrong = None;
    for (case, payload, extended, bits) in [
        ("no byte", 0, false, (47, 55)),
        ("8 bytes", 8, false, (111, 135)),
        ("no byte, extended", 0, true, (67, 80)),
        ("8 bytes, extended", 8, true, (131, 160)),
    ] {
        wrong = tell(wrong, case, frame_bits(payload, extended) == bits);
    }
    assert!(rt; wrong.is_none(), "{wrong:?}");
}
