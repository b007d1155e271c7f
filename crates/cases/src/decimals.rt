// The decimals of the kinds that have some. The header's are held to these lines.
use crate::Lines;
use layout::decimals;
use std::fmt::Write;

pub fn cases(lines: &mut Lines) {
    let _ = writeln!(lines, "decimals of a price: {}", decimals::price());
    let _ = writeln!(
        lines,
        "decimals of an entry price: {}",
        decimals::entry_price()
    );
    let _ = writeln!(lines, "decimals of a quantity: {}", decimals::quantity());
    let _ = writeln!(lines, "decimals of an amount: {}", decimals::amount());
}
