//! Tests show that search by halves finds what a walk finds, and that places lead back over changes.

use crate::changes::{Both, Numbers, Piece, changes_by, changes_of};
use crate::walk::{Found, found_by_walk};
use edit_mapper::{Mapper, Spans};
use std::alloc::{AllocError, Global};
use std::test::Fail;
use text_pos::Length;

/// What is found by halves.
fn found(mapper: &Mapper, offset: Length) -> Found {
    match mapper.before(offset) {
        None => Found {
            before: None,
            distance: None,
        },
        Some(before) => Found {
            before: Some(before),
            distance: mapper.distance(offset),
        },
    }
}

fn far(lines: u32, cols: u32) -> Length {
    Length { lines, cols }
}

/// Places of a text's first lines, and of its last columns.
fn some_places(alloc: Global) -> Result<Vec<Length>, AllocError> {
    let mut places = Vec::new(alloc);
    for lines in 0..24 {
        for cols in 0..16 {
            places.push(far(lines, cols))?;
            places.push(far(lines, 4_294_967_295 - cols))?;
        }
    }
    Ok(places)
}

#[test]
fn halves_find_what_a_walk_finds(rt: HostRuntime) -> Result<(), Fail> {
    let places = some_places(rt.alloc())?;
    let mut numbers = Numbers::new(1);
    for count in 0..300 {
        let both = changes_by(rt.alloc(), &mut numbers, count % 20)?;
        let mapper = Mapper::new(&both.spans);
        for place in &places {
            assert_eq!(rt;
                found(&mapper, *place),
                found_by_walk(both.plain.as_slice(), *place),
                "list {count}, place {place:?}"
            );
        }
    }
    Ok(())
}

/// In line 0 two characters behind the first become five, and one is put before the fifth; in line 1 the fourth goes.
fn three_changes(alloc: Global) -> Result<Both, AllocError> {
    changes_of(
        alloc,
        &[
            Piece {
                gap: far(0, 1),
                old: far(0, 2),
                new: far(0, 5),
            },
            Piece {
                gap: far(0, 1),
                old: far(0, 0),
                new: far(0, 1),
            },
            Piece {
                gap: far(1, 3),
                old: far(0, 1),
                new: far(0, 0),
            },
        ],
    )
}

#[test]
fn places_lead_back_over_changes(rt: HostRuntime) -> Result<(), Fail> {
    let both = three_changes(rt.alloc())?;
    let mapper = Mapper::new(&both.spans);
    for (place, before, distance) in [
        (far(0, 0), Some(far(0, 0)), Some(far(0, 1))),
        (far(0, 1), Some(far(0, 1)), Some(far(0, 0))),
        (far(0, 2), None, None),
        (far(0, 6), Some(far(0, 3)), Some(far(0, 1))),
        (far(0, 7), Some(far(0, 4)), Some(far(0, 0))),
        (far(0, 8), Some(far(0, 4)), Some(far(1, 3))),
        (far(1, 0), Some(far(1, 0)), Some(far(0, 3))),
        (far(1, 3), Some(far(1, 4)), None),
        (far(1, 4_294_967_294), Some(far(1, 4_294_967_295)), None),
        (far(1, 4_294_967_295), None, None),
        (far(9, 4_294_967_295), Some(far(9, 4_294_967_295)), None),
    ] {
        let wanted = Found { before, distance };
        assert_eq!(rt; found(&mapper, place), wanted, "place {place:?}");
    }
    Ok(())
}

#[test]
fn without_changes_places_stay(rt: HostRuntime) {
    let spans = Spans::none(rt.alloc());
    let mapper = Mapper::new(&spans);
    assert_eq!(rt; mapper.before(far(3, 4)), Some(far(3, 4)));
    assert_eq!(rt; found(&mapper, far(3, 4)).distance, None);
}
