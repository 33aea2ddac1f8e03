//! Refusals, marks and a pile of layers.

use layers::check::Check;
use layers::window::Window;
use std::alloc::{AllocError, Global};
use std::test::Fail;
use store::bench::BenchStore;
use store::fault::{Cause, Fault};
use store::plain::PlainStore;
use store::store::Store;

/// A plain store of `count` blocks of `size` zero bytes.
fn blank(heap: Global, count: u16, size: u8) -> Result<PlainStore, AllocError> {
    let bytes = vec![in heap; 0u8; count as usize * size as usize]?;
    let marks = vec![in heap; 0u8; count as usize]?;
    Ok(PlainStore::new(bytes, marks, u32::from(size)))
}

fn refused(cause: Cause, block: u32, depth: u8) -> Result<(), Fault> {
    Err(Fault {
        cause,
        block,
        depth,
    })
}

#[test]
fn a_plain_store_refuses_in_order(rt: HostRuntime) -> Result<(), Fail> {
    let mut store = blank(rt.alloc(), 4, 16)?;
    let mut page = [7u8; 16];
    let mut short = [7u8; 15];
    assert_eq!(rt; store.mark(3), Ok(()));
    assert_eq!(rt;
        store.read(4, &mut short),
        refused(Cause::NoSuchBlock, 4, 0)
    );
    assert_eq!(rt;
        store.read(3, &mut short),
        refused(Cause::WrongBuffer, 3, 0)
    );
    assert_eq!(rt; store.read(3, &mut page), refused(Cause::BadBlock, 3, 0));
    assert_eq!(rt; page, [7u8; 16]);
    assert_eq!(rt; store.write(4, &page), refused(Cause::NoSuchBlock, 4, 0));
    assert_eq!(rt;
        store.tally(),
        3,
        "a refused read is counted, a write is not"
    );
    Ok(())
}

#[test]
fn a_write_takes_the_mark_away(rt: HostRuntime) -> Result<(), Fail> {
    let mut store = blank(rt.alloc(), 2, 16)?;
    let mut page = [0u8; 16];
    assert_eq!(rt; store.mark(1), Ok(()));
    assert_eq!(rt; store.write(1, &[9u8; 16]), Ok(()));
    assert_eq!(rt; store.read(1, &mut page), Ok(()));
    assert_eq!(rt; page, [9u8; 16]);
    Ok(())
}

#[test]
fn a_block_length_out_of_bounds_makes_no_blocks(rt: HostRuntime) -> Result<(), Fail> {
    let store = blank(rt.alloc(), 4, 15)?;
    assert_eq!(rt; store.count(), 0);
    assert_eq!(rt; store.size(), 0);
    Ok(())
}

#[test]
fn bytes_are_changed_behind_a_mark(rt: HostRuntime) -> Result<(), Fail> {
    let mut store = blank(rt.alloc(), 2, 16)?;
    assert_eq!(rt; store.mark(0), Ok(()));
    assert_eq!(rt; store.patch(0, 14, &[1, 2]), Ok(()));
    assert_eq!(rt;
        store.patch(0, 15, &[1, 2]),
        refused(Cause::WrongBuffer, 0, 0)
    );
    let mut page = [0u8; 16];
    assert_eq!(rt; store.read(0, &mut page), refused(Cause::BadBlock, 0, 0));
    assert_eq!(rt; store.clear(0), Ok(()));
    assert_eq!(rt; store.read(0, &mut page), Ok(()));
    assert_eq!(rt; page, [0, 0, 0, 0, 0, 0, 0, 0, 0, 0, 0, 0, 0, 0, 1, 2]);
    assert_eq!(rt; store.blocks().len(), 32);
    Ok(())
}

/// Writes a block and reads it back, over any store.
fn echo<S: Store>(store: &mut S, block: u32, bytes: &[u8], back: &mut [u8]) -> Result<(), Fault> {
    store.write(block, bytes)?;
    store.read(block, back)
}

#[test]
fn a_pile_tells_how_deep_a_fault_lies(rt: HostRuntime) -> Result<(), Fail> {
    let window = Window::new(blank(rt.alloc(), 6, 20)?, 2, 3);
    let mut pile = Check::new(window);
    let mut page = [0u8; 18];
    assert_eq!(rt; pile.count(), 3);
    assert_eq!(rt; pile.read(1, &mut page), refused(Cause::WrongCheck, 1, 0));
    assert_eq!(rt; echo(&mut pile, 1, &[5u8; 18], &mut page), Ok(()));
    assert_eq!(rt; page, [5u8; 18]);
    assert_eq!(rt; pile.below().below().mark(3), Ok(()));
    assert_eq!(rt; pile.read(1, &mut page), refused(Cause::BadBlock, 3, 2));
    assert_eq!(rt; pile.below().tally(), 3);
    assert_eq!(rt; pile.read(3, &mut page), refused(Cause::NoSuchBlock, 3, 0));
    assert_eq!(rt;
        pile.below().tally(),
        3,
        "what is refused above is not read below"
    );
    assert_eq!(rt; pile.tally(), 4);
    Ok(())
}

#[test]
fn the_bench_store_is_never_marked(rt: HostRuntime) {
    let mut store = BenchStore::new();
    let mut page = [1u8; 128];
    assert_eq!(rt; store.read(63, &mut page), Ok(()));
    assert_eq!(rt; page, [0u8; 128]);
    assert_eq!(rt;
        store.read(64, &mut page),
        refused(Cause::NoSuchBlock, 64, 0)
    );
    assert_eq!(rt; echo(&mut store, 63, &[2u8; 128], &mut page), Ok(()));
    assert_eq!(rt; page, [2u8; 128]);
}

#[test]
fn a_fault_is_shown_by_its_cause_block_and_depth(rt: HostRuntime) -> Result<(), Fail> {
    let fault = Fault::new(Cause::BadBlock, 70_000).raised();
    let text = format!(in rt.alloc(); "{fault}")?;
    assert_eq!(rt; text.as_str(), "cause=3 block=70000 depth=1");
    Ok(())
}
