// The line that tells how a run ended, and the exit status of the program. The line is built whole before it is
// appended, so that want of memory appends nothing.
ghost use Rattle.std.specs.Prelude.{◌≡◌, ◌++◌, [], ◌∷◌, IfOk, OnOk, OnErr, string_bytes, decimal, codes};
ghost use Rattle.jet_cli.specs.StatusText.{status_line, usage_line, refused_line, job_line, place_text, plan_line, at_text, bad_line, fault_line, spot_name, call_name, exit_number};

use crate::{Call, Refusal, Spot, Status};
use jet_items::NoMemory;
use jet_job::{JobFault, Place};
use jet_lines::LineFault;
use jet_plan::PlanFault;
use std::alloc::{AllocError, Global};

/// Appends the line of a status, with its line feed. After Done there is nothing to say.
pub fn print_status(alloc: Global, status: &Status, to: &mut Vec<u8>) -> Result<(), NoMemory>
    ensures ok { OnOk result (to.new.items ≡ to.old.items ++ status_line status.now) }
    ensures err { OnErr result (to.new.items ≡ to.old.items) }
{
    let text = status_text(alloc, status)?;
    to.extend_from_slice(text.as_bytes())?;
    Ok(())
}

/// The status that the program ends with: 0 for Done and 2 to 6 for the others. 1 is left to the language.
pub fn exit_status(status: &Status) -> u8
    ensures { result ≡ exit_number status.now }
{
    match status {
        Status::Done => 0,
        Status::Usage => 2,
        Status::JobRefused(_) => 3,
        Status::BadLine { .. } => 4,
        Status::OutsideFault { .. } => 5,
        Status::NoMemory => 6,
    }
}

fn status_text(alloc: Global, status: &Status) -> Result<String, AllocError>
    ensures { IfOk result (λ text. string_bytes text ≡ status_line status.now) }
{
    match status {
        Status::Done => Ok(String::new(alloc)),
        Status::Usage => usage_text(alloc),
        Status::JobRefused(refusal) => refused_text(alloc, refusal),
        Status::BadLine { part, line, why } => bad_text(alloc, *part, *line, why),
        Status::OutsideFault { call, file } => fault_text(alloc, call, file),
        Status::NoMemory => String::from_str(alloc, "jet: no memory\n"),
    }
}

fn usage_text(alloc: Global) -> Result<String, AllocError>
    ensures { IfOk result (λ text. string_bytes text ≡ usage_line) }
{
    String::from_str(
        alloc,
        "jet: usage: jet run JOB, jet window SIZE SLIDE LAG FILE, jet plan JOB, jet check JOB, jet trial SEED\n",
    )
}

fn refused_text(alloc: Global, refusal: &Refusal) -> Result<String, AllocError>
    ensures { IfOk result (λ text. string_bytes text ≡ refused_line refusal.now) }
{
    match refusal {
        Refusal::Job(fault) => job_text(alloc, fault),
        Refusal::Plan(fault) => plan_text(alloc, fault),
    }
}

fn job_text(alloc: Global, fault: &JobFault) -> Result<String, AllocError>
    ensures { IfOk result (λ text. string_bytes text ≡ job_line fault.now) }
{
    let number = fault.number();
    let place = place_text(alloc, fault.place())?;
    let place = place.as_str();
    format!(in alloc; "jet: job refused: job fault {number}{place}\n")
}

fn place_text(alloc: Global, place: Option<Place>) -> Result<String, AllocError>
    ensures { IfOk result (λ text. string_bytes text ≡ place_text place) }
{
    match place {
        None => Ok(String::new(alloc)),
        Some(Place::Top) => String::from_str(alloc, " top"),
        Some(Place::Vertex(vertex)) => format!(in alloc; " vertex {vertex}"),
        Some(Place::Leg(vertex, leg)) => format!(in alloc; " leg {vertex} {leg}"),
        Some(Place::Edge(edge)) => format!(in alloc; " edge {edge}"),
        Some(Place::Settings) => String::from_str(alloc, " settings"),
    }
}

fn plan_text(alloc: Global, fault: &PlanFault) -> Result<String, AllocError>
    ensures { IfOk result (λ text. string_bytes text ≡ plan_line fault.now) }
{
    let number = fault.number();
    let place = at_text(alloc, fault.place())?;
    let place = place.as_str();
    format!(in alloc; "jet: job refused: plan fault {number}{place}\n")
}

fn at_text(alloc: Global, place: Option<u32>) -> Result<String, AllocError>
    ensures { IfOk result (λ text. string_bytes text ≡ at_text place) }
{
    match place {
        Some(at) => format!(in alloc; " at {at}"),
        None => Ok(String::new(alloc)),
    }
}

fn bad_text(alloc: Global, part: u16, line: u32, why: &LineFault) -> Result<String, AllocError>
    ensures { IfOk result (λ text. string_bytes text ≡ bad_line part line why.now) }
{
    let number = why.number();
    format!(in alloc; "jet: bad line: part {part} line {line}: fault {number}\n")
}

fn fault_text(alloc: Global, call: &Call, spot: &Spot) -> Result<String, AllocError>
    ensures { IfOk result (λ text. string_bytes text ≡ fault_line call.now spot.now) }
{
    let call = call_name(call);
    let spot = spot_name(alloc, spot)?;
    let spot = spot.as_str();
    format!(in alloc; "jet: fault: {call} {spot}\n")
}

fn call_name(call: &Call) -> &'static str
    ensures { result.now ≡ call_name call.now }
{
    match call {
        Call::Open => "open",
        Call::Read => "read",
        Call::Write => "write",
    }
}

fn spot_name(alloc: Global, spot: &Spot) -> Result<String, AllocError>
    ensures { IfOk result (λ text. string_bytes text ≡ spot_name spot.now) }
{
    match spot {
        Spot::Job => String::from_str(alloc, "job"),
        Spot::Part(part) => part_name(alloc, *part),
        Spot::Rows => String::from_str(alloc, "rows"),
        Spot::Notes => String::from_str(alloc, "notes"),
    }
}

fn part_name(alloc: Global, part: u16) -> Result<String, AllocError>
    ensures { IfOk result (λ text. string_bytes text ≡ codes "part " ++ decimal part) }
{
    format!(in alloc; "part {part}")
}
