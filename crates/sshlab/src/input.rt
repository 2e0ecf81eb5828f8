//! The program's input, read whole.

ghost use Rattle.std.specs.Prelude.{◌≡◌, ◌<◌, ◌≤◌, ◌↔◌, Err, IfErr, IfOk, IfSome, false, true, length};
ghost use Rattle.sshlab.specs.Engines.{IsInputFault};
ghost use Rattle.sshlab.specs.declared.tool_fault.ToolFault.TheVariants as fault;
ghost use Rattle.sshlab.specs.declared.scenario.TheConstants.{TEXT_LIMIT};

use crate::scenario::TEXT_LIMIT;
use crate::streams::Source;
use crate::tool_fault::ToolFault;
use std::alloc::Global;

/// How many bytes are asked for at once.
const CHUNK: usize = 4096;

/// Reads the input to its end, or to the first byte that is too many.
pub(crate) fn read_all<I: Source>(alloc: Global, input: &mut I) -> Result<Vec<u8>, ToolFault>
    requires { I.has_failed input.old ≡ false }
    ensures limit { IfOk result (λ text. length text.items ≤ TEXT_LIMIT) }
    ensures failed { (result ≡ Err fault.Read) ↔ (I.has_failed input.new ≡ true) }
    ensures fault { IfErr result IsInputFault }
    // Where the bytes are known they are what is read, or too many.
    ensures whole { IfOk result (λ text. IfSome (I.remaining input.old) (λ bytes. text.items ≡ bytes)) }
    ensures too_long { result ≡ Err fault.TooLong → IfSome (I.remaining input.old) (λ bytes. TEXT_LIMIT < length bytes) }
{
    let mut text = Vec::new(alloc);
    let mut chunk = [0u8; CHUNK];
    while text.len() <= TEXT_LIMIT {
        let room = (TEXT_LIMIT + 1 - text.len()).min(CHUNK);
        let count = input.read(&mut chunk[..room]).map_err(|_| ToolFault::Read)?;
        if count == 0 {
            return Ok(text);
        }
        text.extend_from_slice(&chunk[..count])
            .map_err(|_| ToolFault::Memory)?;
    }
    Err(ToolFault::TooLong)
}
