//! Scripts run and lines checked from one stream to another that holds bytes back.

use rr_base::Counted;
use rr_fakes::holding::Holding;
use rr_fakes::pieces::in_pieces;
use rr_line::Precision;
use rr_process::obey_order;
use rr_words::Order;
use std::alloc::Global;

/// Obeys an order with a writer that holds bytes back, and returns whether that was without a
/// fault.
fn is_obeyed(alloc: Global, order: &Order, input: &[u8], passed: &mut Vec<u8>) -> bool {
    let held = Vec::new(alloc);
    let mut output = Counted::new(Holding { held, passed });
    obey_order(alloc, order, &mut in_pieces(input, 100), &mut output).is_ok()
}

/// Whether such a writer has passed on this text once an order is obeyed.
fn passes_on(alloc: Global, order: &Order, input: &[u8], text: &[u8]) -> bool {
    let mut passed = Vec::new(alloc);
    is_obeyed(alloc, order, input, &mut passed) && passed.as_slice() == text
}

#[test]
fn what_an_order_prints_is_passed_on(rt: HostRuntime) {
    let alloc = rt.alloc();
    let (precision, now) = (Precision::Ns, 0);
    let check_lines = Order::CheckLines { precision, now };
    let output = passes_on(
        alloc,
        &Order::Sim { file: None },
        b"frob",
        b"line 1: BadCommand\n",
    );
    let report = passes_on(alloc, &check_lines, b"m v=1i", b"m v,1,0\n");
    assert_eq!(rt; (output, report), (true, true));
}
