//! Bodies made ready to be kept.
use outside::{FrameFault, Framed};
use std::alloc::Global;
use std::test::Fail;

fn is_framed(alloc: Global, body: &[u8], piece: &[u8]) -> bool {
    match Framed::of(alloc, body) {
        Ok(framed) => framed.piece() == piece,
        Err(_) => false,
    }
}

#[test]
fn a_piece_has_length_body_and_a_closed_gate(rt: HostRuntime) {
    assert!(rt; is_framed(rt.alloc(), &[], &[0, 0, 0, 0, 0]));
    assert!(rt; is_framed(rt.alloc(), &[9, 8], &[0, 0, 0, 2, 9, 8, 0]));
}

#[test]
fn four_megabytes_are_the_longest_body(rt: HostRuntime) -> Result<(), Fail> {
    let longest = vec![in rt.alloc(); 0u8; 4_194_304]?;
    assert!(rt; Framed::of(rt.alloc(), &longest).is_ok());
    let longer = vec![in rt.alloc(); 0u8; 4_194_305]?;
    assert!(rt; Framed::of(rt.alloc(), &longer).is_err_and(|fault| fault == FrameFault::TooLong));
    Ok(())
}
