// Opens files.
ghost use Rattle.std.specs.{Prelude.{◌≡◌, ℕ, List, Option, ⊤, IfOk, IfErr}, Option.option_map, Result.result_ok};
ghost use Rattle.shop_engine.specs.{Devices.Device, declared.faults.Fault.TheVariants.ReadFailed};
ghost use Rattle.shop_program.specs.Commands.{IsGiven, IsMissing};

use shop_engine::{DeviceFailed, Fault, Reading, Source};
use std::fs::File;
use std::rt;

/// Opens the files that a command line names.
pub trait Files {
    type File: Source + Drop;

    /// What opening a path may give: a file as it is then, or none if it can't be opened.
    ghost opens: { Self → List ℕ → Option Device → Type 0 };

    /// Opens the file at `path`. Fails if it can't be opened.
    fn open(&self, path: &str) -> Result<Self::File, DeviceFailed>
        ensures { opens self.now path.now (option_map Self.File.device (result_ok result)) };
}

/// The files of a runtime of std: which bytes are at a path isn't known.
impl<R: rt::Files> Files for R {
    type File = Reading<R::File>;

    ghost opens = { λ _ _ _. ⊤ };

    fn open(&self, path: &str) -> Result<Reading<R::File>, DeviceFailed> {
        File::open(self, path)
            .map(Reading::new)
            .map_err(|_| DeviceFailed)
    }
}

/// Opens the file at `path`, if a path is given. Fails with `ReadFailed` if the file can't be opened.
pub fn open_given<R: Files>(rt: &R, path: &Option<String>) -> Result<Option<R::File>, Fault>
    ensures opened { IfOk result (λ file. IsGiven (R.opens rt.now) path.now (option_map R.File.device file)) }
    ensures unopened { IfErr result (λ fault. (fault ≡ ReadFailed) × IsMissing (R.opens rt.now) path.now) }
{
    let Some(path) = path else {
        return Ok(None);
    };
    match rt.open(path.as_str()) {
        Ok(file) => Ok(Some(file)),
        Err(_) => Err(Fault::ReadFailed),
    }
}
