//! Tests the message of a rejection that no command prints.
use dapnorm::Refused;
use std::alloc::Global;

/// Returns whether a rejection is printed as this text.
fn is_printed(alloc: Global, refused: Refused, text: &str) -> bool {
    matches!(format!(in alloc; "{refused}"), Ok(printed) if printed.as_str() == text)
}

#[test]
fn the_text_of_a_refusal_of_the_last_record(rt: HostRuntime) {
    let refused = Refused::Fraction(18_446_744_073_709_551_615);
    let text = "record 18446744073709551615: Fraction";
    assert!(rt; is_printed(rt.alloc(), refused, text));
}
