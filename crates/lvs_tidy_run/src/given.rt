//! The script that an input makes.
ghost use Rattle.std.specs.Prelude.{◌≡◌, ◌≤◌, ◌<◌, IfOk, IfErr, OnOk, Ok};
ghost use Rattle.hex.specs.Hex.{IsBytes};
ghost use Rattle.lvs_model.specs.Captured.{captured as spec_captured};
ghost use Rattle.lvs_model.specs.CaptureFiles.{capture_of};
ghost use Rattle.lvs_model.specs.Scripts.{script_of};
ghost use Rattle.lvs_model.specs.Tasks.{script_given, capture_given};
ghost use Rattle.lvs_tidy_run.specs.Asked.{CanBeAsked};
ghost use Rattle.lvs_pcap.specs.Reading.{AreInSeconds};
ghost use Rattle.lvs_tidy.specs.ScriptTexts.{script_text};
ghost use Rattle.lvs_tidy_run.specs.Made.{script_made, AllHaveBytes, IsRefusedBy, capture_status};

use crate::parts::two_parts;
use crate::words::Asked;
use lvs_pcap::{CaptureRefused, captured, read_capture};
use lvs_script::{ScriptRefused, read_script};
use lvs_types::{Addr, Capture, Script, Status};
use std::alloc::Global;

/// The script that bytes spell, or the status of its first refused line.
fn given_script(alloc: Global, bytes: &[u8]) -> Result<Script, Status>
    ensures accepted { IfOk result (λ script. script_given bytes.now ≡ Ok script) }
    ensures refused { IfErr result (IsRefusedBy (script_given bytes.now)) }
{
    match read_script(alloc, bytes) {
        Ok(script) => Ok(script),
        Err(ScriptRefused::Refused { line, cause }) => Err(Status::ScriptRefused { line, cause }),
        Err(ScriptRefused::NoMemory) => Err(Status::NoMemory),
    }
}

/// The status of a refused capture.
fn refused_capture(refused: &CaptureRefused) -> Status
    ensures { result ≡ capture_status refused.now }
{
    match refused {
        CaptureRefused::Refused { at, cause } => Status::CaptureRefused {
            at: *at,
            cause: *cause,
        },
        CaptureRefused::NoMemory => Status::NoMemory,
    }
}

/// The capture that bytes hold, or the status of its first refused record.
fn given_capture(alloc: Global, bytes: &[u8]) -> Result<Capture, Status>
    ensures accepted { IfOk result (λ capture. capture_of bytes.now ≡ Ok capture) }
    ensures seconds { IfOk result (λ capture. AreInSeconds capture.frames) }
    ensures bytes { IsBytes bytes.now }
    ensures refused { IfErr result (IsRefusedBy (capture_given (capture_of bytes.now))) }
{
    match read_capture(alloc, bytes) {
        Ok(capture) => Ok(capture),
        Err(refused) => Err(refused_capture(&refused)),
    }
}

/// Adds the rounds of a capture to a script, or gives the status of the first record that is one too
/// many.
fn add_capture(
    alloc: Global,
    net: Addr,
    bits: u8,
    step: u32,
    script: &mut Script,
    capture: Capture,
) -> Result<(), Status>
    requires bits { bits ≤ 32 }
    requires step { 0 < step }
    ensures accepted { OnOk result (spec_captured net bits step script.old capture ≡ Ok script.new) }
    ensures refused { IfErr result (IsRefusedBy (capture_given (spec_captured net bits step script.old capture))) }
{
    match captured(alloc, net, bits, step, script, capture) {
        Ok(()) => Ok(()),
        Err(refused) => Err(refused_capture(&refused)),
    }
}

/// The script with the rounds of the capture behind it, or the status of the first refused line, and
/// then of the first refused record.
pub(crate) fn given_captured(alloc: Global, asked: Asked, input: &[u8]) -> Result<Script, Status>
    requires { CanBeAsked asked }
    ensures accepted { IfOk result (λ whole. script_made asked input.now ≡ Ok whole) }
    ensures again { IfOk result (λ whole. AllHaveBytes whole.rounds → script_of (script_text whole) ≡ Ok whole) }
    ensures refused { IfErr result (IsRefusedBy (script_made asked input.now)) }
{
    let parts = two_parts(b"capture", input);
    let mut script = given_script(alloc, parts.first)?;
    let capture = given_capture(alloc, parts.second)?;
    add_capture(
        alloc,
        asked.net,
        asked.bits,
        asked.step,
        &mut script,
        capture,
    )?;
    Ok(script)
}
