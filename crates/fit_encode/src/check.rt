//! The measuring pass: whether files can be written, and the first reason where they can't.
ghost use Rattle.std.specs.Prelude.{◌≡◌, ◌⊎◌, ◌<◌, ◌^◌, [], ◌∷◌, OnOk, IfOk, IfErr, length, Err};
ghost use Rattle.fit_record.specs.Environment.{empty_environment};
ghost use Rattle.fit_record.specs.Records.{AllFit, records_bytes};
ghost use Rattle.fit_record.specs.Files.{IsWellFormed, IsWellFormedChain, body, chain_limit};
ghost use Rattle.fit_encode.specs.Faults.{shape_fault, IsRecordFault, IsFileFault, IsFirstFault};

use crate::EncodeFault;
use fit_frame::{HeadFault, has_form, head_bytes};
use fit_record::{CHAIN_LIMIT, Env, FitFile, Record, ShapeFault};
use std::alloc::Allocator;

/// Whether all files can be written, and their number is allowed. The environment is used anew for
/// each.
pub(crate) fn check_files<A: Allocator + Copy>(
    alloc: A,
    env: &mut Env<A>,
    files: &[FitFile<A>],
) -> Result<(), EncodeFault>
    ensures ok { OnOk result (IsWellFormedChain chain_limit files.now) }
    ensures err { IfErr result (λ fault. (fault ≡ EncodeFault.NoMemory)
        ⊎ IsFirstFault files.now fault) }
{
    if files.is_empty() || files.len() > CHAIN_LIMIT as usize {
        return Err(EncodeFault::ChainLength);
    }
    for (place, file) in files.iter().enumerate() {
        check_file(alloc, env, place as u64 + 1, file)?;
    }
    Ok(())
}

/// The length of the data of a file that can be written alone.
pub(crate) fn check_one<A: Allocator + Copy>(
    alloc: A,
    env: &mut Env<A>,
    file: &FitFile<A>,
) -> Result<u32, EncodeFault>
    ensures ok { IfOk result (λ n. IsWellFormed file.now × (n ≡ length (body file.now))) }
    ensures err { IfErr result (λ fault. (fault ≡ EncodeFault.NoMemory)
        ⊎ IsFirstFault (file.now ∷ []) fault) }
{
    check_file(alloc, env, 1, file)
}

/// The length of the data of the file of this number, if it can be written.
fn check_file<A: Allocator + Copy>(
    alloc: A,
    env: &mut Env<A>,
    number: u64,
    file: &FitFile<A>,
) -> Result<u32, EncodeFault>
    ensures ok { IfOk result (λ n. IsWellFormed file.now × (n ≡ length (body file.now))) }
    ensures err { IfErr result (λ fault. (fault ≡ EncodeFault.NoMemory)
        ⊎ IsFileFault number file.now fault) }
{
    if !has_form(&file.header) {
        return Err(EncodeFault::BadHeader { file: number });
    }
    let length = measure(alloc, env, number, file.records.as_slice())?;
    match head_bytes(&file.header, length) {
        Ok(_) => Ok(length),
        Err(HeadFault::BadHeader) => Err(EncodeFault::BadHeader { file: number }),
        Err(HeadFault::ZeroIsSum) => Err(EncodeFault::ZeroIsSum { file: number }),
    }
}

/// The length of the data of the file of this number.
fn measure<A: Allocator + Copy>(
    alloc: A,
    env: &mut Env<A>,
    number: u64,
    records: &[Record<A>],
) -> Result<u32, EncodeFault>
    ensures ok { IfOk result (λ n. AllFit empty_environment records.now
        × (n ≡ length (records_bytes empty_environment records.now))) }
    ensures small { IfOk result (λ n. n < 2 ^ 32) }
    ensures err { IfErr result (λ fault. (fault ≡ EncodeFault.NoMemory)
        ⊎ IsRecordFault number records.now fault) }
{
    *env = Env::new(alloc);
    let mut length: u32 = 0;
    for (index, r) in records.iter().enumerate() {
        let more = match env.fits(r) {
            Ok(more) => more,
            Err(fault) => return Err(shape_fault(number, index as u64, fault)),
        };
        let Some(sum) = length.checked_add(more) else {
            return Err(EncodeFault::TooLong {
                file: number,
                index: index as u64,
            });
        };
        if env.learn(r).is_err() {
            return Err(EncodeFault::NoMemory);
        }
        length = sum;
    }
    Ok(length)
}

/// The fault of the record at a place of a file.
pub(crate) fn shape_fault(file: u64, index: u64, fault: ShapeFault) -> EncodeFault
    ensures { result ≡ shape_fault file index fault }
{
    match fault {
        ShapeFault::BadLocal => EncodeFault::BadLocal { file, index },
        ShapeFault::BadOffset => EncodeFault::BadOffset { file, index },
        ShapeFault::UndefinedLocal => EncodeFault::UndefinedLocal { file, index },
        ShapeFault::WrongShape { field } => EncodeFault::WrongShape { file, index, field },
    }
}
