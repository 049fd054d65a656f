use bench_work::{
    Order, Sample, compare_pairs, entry_bytes, lay_layers, make_records, match_packages,
    match_record, replace_records,
};
use cv_base::NoMemory;
use std::alloc::Global;
use test_data::number;

/// What work over made data counts, and 0 for a work that there is not.
pub fn repeat(alloc: Global, work: &str, arguments: &[String]) -> Result<u64, NoMemory> {
    let kind = arguments.first().map_or("deb", String::as_str);
    let first = number(arguments, 0, 100);
    match work {
        "feeds" => replace_records(
            alloc,
            first,
            number(arguments, 1, 10),
            number(arguments, 2, 1),
        ),
        "findings" => match_packages(
            alloc,
            first,
            number(arguments, 1, 10),
            number(arguments, 2, 1),
        ),
        "match" => match_record(
            alloc,
            Sample::of(kind),
            number(arguments, 1, 100),
            number(arguments, 2, 1),
        ),
        "orders" => compare_pairs(
            alloc,
            Order::of(kind),
            number(arguments, 1, 1000),
            number(arguments, 2, 0),
        ),
        "overlay" => lay_layers(alloc, number(arguments, 0, 200), number(arguments, 1, 0)),
        "records" => make_records(alloc, first, number(arguments, 1, 1)),
        "transcript" => entry_bytes(alloc, number(arguments, 0, 5)),
        _ => Ok(0),
    }
}
