//! Why a text is no value.

ghost use Rattle.std.specs.Prelude.{◌≡◌, ◌++◌, IfOk, codes};
ghost use Rattle.std.specs.String.{string_bytes};
ghost use Rattle.xdr_value.specs.Data.{Data, Datum};
ghost use Rattle.xdr_value.specs.View.{kind_of};
ghost use Rattle.xdr_json.specs.Judged.{Judged, misfit, below, field_step, index_step};
ghost use Rattle.xdr_json.specs.TypeText.{type_text};
ghost use Rattle.xdr_json.specs.Answers.{Fails};
ghost use Rattle.xdr_json.specs.declared.fault.Stop.TheVariants.{Memory};

use crate::type_name::write_type;
use std::alloc::{AllocError, AllocFailed, Global};
use thiserror::Error;
use xdr_value::Ty;

/// Why a text is no value of a type.
#[derive(Debug, Drop, Error)]
pub enum JsonFault {
    /// It is no JSON, or has a number that no float holds, or nests more than 127 deep.
    #[error("no JSON")]
    NotJson,
    /// The JSON at the path is no value of the type `want`, the first one from the outside in and
    /// in the order of the type. `$` is the whole, `.FIELD` and `[INDEX]` are parts.
    #[error("at {path} no {want}")]
    Mismatch { path: String, want: String },
    #[error("out of memory")]
    OutOfMemory,
}

/// A place that doesn't fit: the steps to it, and the type that is wanted there.
#[derive(Debug, Drop)]
pub struct Misfit {
    pub path: String,
    pub want: String,
}

/// Why a judging gave nothing.
#[derive(Debug, Drop)]
pub enum Stop {
    Memory,
    Misfit(Misfit),
}

impl From<AllocError> for Stop {
    ghost from_gives = { λ _ e. e ≡ Memory };

    fn from(_e: AllocError) -> Stop {
        Stop::Memory
    }
}

impl<T: Drop> From<AllocFailed<T>> for Stop {
    ghost from_gives = { λ _ e. e ≡ Memory };

    fn from(_e: AllocFailed<T>) -> Stop {
        Stop::Memory
    }
}

fn wanted(alloc: Global, ty: &Ty) -> Result<String, AllocError>
    ensures { IfOk result (λ s. string_bytes s ≡ type_text (kind_of ty.now)) }
{
    let mut want = String::new(alloc);
    write_type(alloc, ty, &mut want)?;
    Ok(want)
}

/// What stops where the JSON is no value of the type.
pub fn unfit(alloc: Global, ty: &Ty) -> Stop
    ensures { Fails result (misfit {A = Datum} (kind_of ty.now)) }
{
    match wanted(alloc, ty) {
        Err(_) => Stop::Memory,
        Ok(want) => Stop::Misfit(Misfit {
            path: String::new(alloc),
            want,
        }),
    }
}

fn joined(alloc: Global, step: &str, path: &str) -> Result<String, AllocError>
    ensures { IfOk result (λ s. string_bytes s ≡ step.now ++ path.now) }
{
    let mut both = String::from_str(alloc, step)?;
    both.push_str(path)?;
    Ok(both)
}

/// What stops one step up.
pub fn below(alloc: Global, step: &str, stop: Stop) -> Stop
    ensures { (r : Judged Datum) → Fails stop r → Fails result (below step.now r) }
{
    match stop {
        Stop::Memory => Stop::Memory,
        Stop::Misfit(misfit) => match joined(alloc, step, misfit.path.as_str()) {
            Err(_) => Stop::Memory,
            Ok(path) => Stop::Misfit(Misfit {
                path,
                want: misfit.want,
            }),
        },
    }
}

fn field_step(alloc: Global, name: &str) -> Result<String, AllocError>
    ensures { IfOk result (λ s. string_bytes s ≡ field_step name.now) }
{
    joined(alloc, ".", name)
}

/// What stops above a field.
pub fn below_field(alloc: Global, name: &str, stop: Stop) -> Stop
    ensures { (r : Judged Datum) → Fails stop r → Fails result (below (field_step name.now) r) }
{
    match field_step(alloc, name) {
        Err(_) => Stop::Memory,
        Ok(step) => below(alloc, step.as_str(), stop),
    }
}

fn index_step(alloc: Global, index: usize) -> Result<String, AllocError>
    ensures { IfOk result (λ s. string_bytes s ≡ index_step index) }
{
    let mut step = String::from_str(alloc, "[")?;
    step.push_str(index.to_string(alloc)?.as_str())?;
    step.push_str("]")?;
    Ok(step)
}

/// What stops above an element.
pub fn below_index(alloc: Global, index: usize, stop: Stop) -> Stop
    ensures { (r : Judged Datum) → Fails stop r → Fails result (below (index_step index) r) }
{
    match index_step(alloc, index) {
        Err(_) => Stop::Memory,
        Ok(step) => below(alloc, step.as_str(), stop),
    }
}

/// What stops above a whole list.
pub fn below_root(alloc: Global, stop: Stop) -> Stop
    ensures { (r : Judged Data) → Fails stop r → Fails result (below (codes "$") r) }
{
    match stop {
        Stop::Memory => Stop::Memory,
        Stop::Misfit(misfit) => match joined(alloc, "$", misfit.path.as_str()) {
            Err(_) => Stop::Memory,
            Ok(path) => Stop::Misfit(Misfit {
                path,
                want: misfit.want,
            }),
        },
    }
}
