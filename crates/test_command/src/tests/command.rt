mod failures;
mod lists;
mod scans;
mod versions;

use std::alloc::Global;
use std::process::Abort;
use test_commands::{
    CALM, Failure, InputCommand, NoMemory, Status, USAGE, command_ends, orders_to, root_scans_to,
    scan_input,
};

/// Runs a command on each input, and compares how it ends and what it prints.
fn try_inputs<R: Abort>(
    rt: &R,
    alloc: Global,
    command: InputCommand,
    rows: &[(&str, Status, &str)],
) -> Result<(), NoMemory> {
    for (input, status, output) in rows {
        let is_same = command_ends(alloc, command, input, &CALM, (*status, *output))?;
        assert!(rt; is_same, "{input}");
    }
    Ok(())
}

/// Runs a command in which a call fails, for each of these cases.
fn try_failures<R: Abort>(
    rt: &R,
    alloc: Global,
    command: InputCommand,
    cases: &[Failure],
) -> Result<(), NoMemory> {
    for case in cases {
        let want = (case.status, case.output);
        let is_same = command_ends(alloc, command, case.input, &case.outside, want)?;
        assert!(rt; is_same, "{}", case.input);
    }
    Ok(())
}

/// Scans an image of these layers, and compares how the scan ends and what it prints.
fn try_scan<R: Abort>(
    rt: &R,
    alloc: Global,
    layers: &str,
    records: &str,
    want: (Status, &str),
) -> Result<(), NoMemory> {
    let input = scan_input(alloc, layers, records)?;
    let is_same = command_ends(alloc, InputCommand::Scan, input.as_str(), &CALM, want)?;
    assert!(rt; is_same, "{layers} {records}");
    Ok(())
}

/// Compares versions, and compares how that ends and what it prints.
fn try_order<R: Abort>(
    rt: &R,
    alloc: Global,
    arguments: &[&str],
    want: (Status, &str),
) -> Result<(), NoMemory> {
    let is_same = orders_to(alloc, arguments, want)?;
    assert!(rt; is_same, "{arguments:?}");
    Ok(())
}

#[test]
fn a_scan_prints_findings(rt: HostRuntime) -> Result<(), NoMemory> {
    for (layers, records, output) in &scans::GOOD {
        try_scan(&rt, rt.alloc(), layers, records, (Status::Done, *output))?;
    }
    Ok(())
}

#[test]
fn a_scan_of_the_root_finds_the_same(rt: HostRuntime) -> Result<(), NoMemory> {
    for (layers, records, output) in &scans::GOOD {
        let input = scan_input(rt.alloc(), layers, records)?;
        let is_same = root_scans_to(rt.alloc(), input.as_str(), output)?;
        assert!(rt; is_same, "{layers} {records}");
    }
    Ok(())
}

#[test]
fn a_scan_prints_why_there_are_none(rt: HostRuntime) -> Result<(), NoMemory> {
    for (layers, records, output) in &scans::REFUSED {
        try_scan(&rt, rt.alloc(), layers, records, (Status::Refused, *output))?;
    }
    Ok(())
}

#[test]
fn a_stated_seal_is_compared(rt: HostRuntime) -> Result<(), NoMemory> {
    try_inputs(&rt, rt.alloc(), InputCommand::Scan, &scans::SEALED)
}

#[test]
fn the_packages_of_an_image_are_listed(rt: HostRuntime) -> Result<(), NoMemory> {
    let sbom = InputCommand::Sbom;
    try_inputs(&rt, rt.alloc(), sbom, &lists::SBOMS)?;
    try_failures(&rt, rt.alloc(), sbom, &lists::SBOM_FAILURES)
}

#[test]
fn a_list_of_components_is_scanned(rt: HostRuntime) -> Result<(), NoMemory> {
    let scan = InputCommand::ListScan;
    try_inputs(&rt, rt.alloc(), scan, &lists::LISTS)?;
    try_failures(&rt, rt.alloc(), scan, &lists::LIST_FAILURES)
}

#[test]
fn versions_compare(rt: HostRuntime) -> Result<(), NoMemory> {
    for (status, output, comparisons) in &versions::ORDERS {
        for arguments in *comparisons {
            try_order(&rt, rt.alloc(), arguments, (*status, *output))?;
        }
    }
    Ok(())
}

#[test]
fn arguments_that_are_not_a_comparison(rt: HostRuntime) -> Result<(), NoMemory> {
    for arguments in &versions::USAGES {
        try_order(&rt, rt.alloc(), arguments, (Status::Usage, USAGE))?;
    }
    Ok(())
}

#[test]
fn what_fails_is_blamed(rt: HostRuntime) -> Result<(), NoMemory> {
    try_failures(&rt, rt.alloc(), InputCommand::Scan, &failures::CASES)
}
