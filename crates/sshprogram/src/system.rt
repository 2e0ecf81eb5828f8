//! What a program takes from the system: its words, and random bytes.

use crate::program_fault::ProgramFault;
use std::env;
use std::random::RandomSource;

/// The words after the program's name. Fails with `NotText` where one isn't UTF-8, and with `Memory` where an allocation failed.
pub fn words_of(rt: &HostRuntime) -> Result<Vec<String>, ProgramFault> {
    let mut words = Vec::new(rt.alloc());
    let Ok(all) = env::args(rt) else {
        return Err(ProgramFault::NotText);
    };
    for word in all.skip(1) {
        words.push(word)?;
    }
    Ok(words)
}

/// Random bytes, from the system's random source. Fails with `Random` where it has none.
pub fn random<const N: usize>(rt: &HostRuntime) -> Result<[u8; N], ProgramFault> {
    let mut bytes = [0; N];
    match rt.fill_bytes(&mut bytes) {
        Ok(()) => Ok(bytes),
        Err(_) => Err(ProgramFault::Random),
    }
}
