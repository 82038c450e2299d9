// Sheets and joins as sources: listing order, numbering and origins.
use crate::shared::{to, write};
use lts::sources::Source;
use lts::steps::{Origin, Side};
use sheets::joins::Join;
use sheets::store::Sheet;
use std::test::Fail;

fn at(side: Side, place: usize) -> Option<Origin> {
    Some(Origin { side, place })
}

const OLD: [(usize, usize, usize); 3] = [(1, 2, 0), (0, 0, 1), (1, 1, 1)];

const NEW: [(usize, usize, usize); 2] = [(2, 6, 1), (0, 2, 2)];

#[test]
fn sheet_lists(rt: HostRuntime) -> Result<(), Fail> {
    let mut sheet = Sheet::blank(rt.alloc())?;
    write(&mut sheet, 2, 1, &OLD)?;
    assert_eq!(rt;
        (
            sheet.step_count(0),
            sheet.step_count(1),
            sheet.step_count(2),
        ),
        (1, 2, 0)
    );
    assert_eq!(rt;
        (sheet.step(1, 0), sheet.origin(1, 0)),
        (to(2, 0), at(Side::Left, 0))
    );
    assert_eq!(rt;
        (sheet.step(1, 1), sheet.origin(1, 1)),
        (to(1, 1), at(Side::Left, 2))
    );
    assert_eq!(rt; (sheet.step(1, 2), sheet.origin(1, 2)), (None, None));
    // after a strike, later places move up
    sheet.strike((0, 0, 1).into())?;
    assert_eq!(rt; sheet.origin(1, 1), at(Side::Left, 1));
    assert_eq!(rt; sheet.step_count(0), 0);
    Ok(())
}

#[test]
fn lists_as_room_goes(rt: HostRuntime) -> Result<(), Fail> {
    let mut old = Sheet::blank(rt.alloc())?;
    let mut new = Sheet::blank(rt.alloc())?;
    write(&mut old, 2, 1, &OLD)?;
    write(&mut new, 3, 5, &NEW)?;
    let join = Join::of(&old, &new);
    let mut into = Vec::with_capacity(rt.alloc(), 4)?;
    old.list(1, &mut into);
    join.list(4, &mut into);
    assert_eq!(rt; into.len(), 3);
    assert_eq!(rt;
        (into.get(0).copied(), into.get(1).copied()),
        (to(2, 0), to(1, 1))
    );
    assert_eq!(rt; into.get(2).copied(), to(6, 3));
    // two more, of which there is room for one
    join.list(1, &mut into);
    assert_eq!(rt; (into.len(), into.capacity()), (4, 4));
    assert_eq!(rt; into.get(3).copied(), to(2, 0));
    Ok(())
}

#[test]
fn join_lists(rt: HostRuntime) -> Result<(), Fail> {
    let mut old = Sheet::blank(rt.alloc())?;
    let mut new = Sheet::blank(rt.alloc())?;
    write(&mut old, 2, 1, &OLD)?;
    write(&mut new, 3, 5, &NEW)?;
    let join = Join::of(&old, &new);
    assert_eq!(rt; (join.states(), join.signals()), (5, 5));
    assert_eq!(rt;
        (join.step(0, 0), join.origin(0, 0)),
        (to(0, 1), at(Side::Left, 1))
    );
    assert_eq!(rt;
        (join.step(2, 0), join.origin(2, 0)),
        (to(2, 4), at(Side::Right, 1))
    );
    assert_eq!(rt;
        (join.step(4, 0), join.origin(4, 0)),
        (to(6, 3), at(Side::Right, 0))
    );
    assert_eq!(rt; (join.step_count(3), join.step_count(5)), (0, 0));
    assert_eq!(rt; (join.step(5, 0), join.origin(5, 0)), (None, None));
    Ok(())
}
