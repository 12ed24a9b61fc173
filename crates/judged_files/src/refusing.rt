ghost use Rattle.std.specs.Prelude.{◌≡◌, IfOk, option_map};
ghost use Rattle.judged_files.specs.Inside.Judging.{IsHaltFor};
ghost use Rattle.judged_files.specs.Refusals.{refused_at, dim_cause, model_cause, deploy_cause};

use cube_lex::Position;
use dim_core::DimFault;
use file_passes::{Cause, FilePlace, Halt, Refusal};
use lists::ListOf;
use model_bind::DeployCause;
use model_text::ModelTextCause;
use std::alloc::{AllocError, Global};

/// This file is refused at this place.
pub(crate) fn refused_at(
    alloc: Global,
    file: &str,
    place: Position,
    cause: Cause,
) -> Result<Refusal, AllocError>
    ensures { IfOk result (λ refusal. refusal ≡ refused_at file.now place cause) }
{
    Ok(Refusal {
        file: ListOf::new(Vec::from_slice(alloc, file.as_bytes())?),
        at: FilePlace::Text(place),
        cause,
    })
}

/// Why a run goes no further with this file: for this cause at this place, or, where there is no cause, since it is
/// out of memory.
pub(crate) fn halt_at(alloc: Global, file: &str, place: Position, cause: Option<Cause>) -> Halt
    ensures { IsHaltFor (option_map (refused_at file.now place) cause) result }
{
    let Some(cause) = cause else {
        return Halt::Memory;
    };
    match refused_at(alloc, file, place, cause) {
        Ok(refusal) => Halt::Refused(refusal),
        Err(_) => Halt::Memory,
    }
}

/// What a fault of a model text is as a cause of a refusal. Out of memory is none.
pub(crate) fn model_cause(cause: &ModelTextCause) -> Option<Cause>
    ensures { result ≡ model_cause cause.now }
{
    match cause {
        ModelTextCause::Syntax => Some(Cause::Syntax),
        ModelTextCause::WrongVersion => Some(Cause::WrongVersion),
        ModelTextCause::Duplicate => Some(Cause::Duplicate),
        ModelTextCause::UnknownName => Some(Cause::UnknownName),
        ModelTextCause::TooMany => Some(Cause::TooMany),
        ModelTextCause::Dim(fault) => dim_cause(fault),
        ModelTextCause::Memory => None,
    }
}

fn dim_cause(fault: &DimFault) -> Option<Cause>
    ensures { result ≡ dim_cause fault.now }
{
    match fault {
        DimFault::Duplicate => Some(Cause::Duplicate),
        DimFault::UnknownComponent(_) => Some(Cause::UnknownComponent),
        DimFault::Loop(_) => Some(Cause::Loop),
        DimFault::WeightRange => Some(Cause::WeightRange),
        DimFault::TooMany => Some(Cause::TooMany),
        DimFault::BadAttribute(_) => Some(Cause::BadAttribute),
        DimFault::Memory => None,
    }
}

/// What a fault of a whole model is as a cause of a refusal. Out of memory is none.
pub(crate) fn deploy_cause(cause: DeployCause) -> Option<Cause>
    ensures { result ≡ deploy_cause cause }
{
    match cause {
        DeployCause::CoefficientTooLarge => Some(Cause::CoefficientTooLarge),
        DeployCause::TooManyPairs(count) => Some(Cause::TooManyPairs(count)),
        DeployCause::DimensionCount => Some(Cause::DimensionCount),
        DeployCause::CubeTooLarge => Some(Cause::CubeTooLarge),
        DeployCause::ModelTooLarge => Some(Cause::ModelTooLarge),
        DeployCause::WeightProduct => Some(Cause::WeightProduct),
        DeployCause::Syntax => Some(Cause::Syntax),
        DeployCause::TooDeep => Some(Cause::TooDeep),
        DeployCause::TooMany => Some(Cause::TooMany),
        DeployCause::UnknownName => Some(Cause::UnknownName),
        DeployCause::Ambiguous => Some(Cause::Ambiguous),
        DeployCause::WrongCount => Some(Cause::WrongCount),
        DeployCause::DynamicReference => Some(Cause::DynamicReference),
        DeployCause::Unsupported => Some(Cause::Unsupported),
        DeployCause::BadOrder => Some(Cause::BadOrder),
        DeployCause::Unlagged(reference) => Some(Cause::Unlagged(reference)),
        DeployCause::Cycle(names) => Some(Cause::Cycle(names)),
        DeployCause::TooHigh(height) => Some(Cause::TooHigh(height)),
        DeployCause::NotEarlier(reference) => Some(Cause::NotEarlier(reference)),
        DeployCause::DenseTooLarge(count) => Some(Cause::DenseTooLarge(count)),
        DeployCause::NotFed(operand) => Some(Cause::NotFed(operand)),
        DeployCause::FedLimit(count) => Some(Cause::FedLimit(count)),
        DeployCause::Memory => None,
    }
}
