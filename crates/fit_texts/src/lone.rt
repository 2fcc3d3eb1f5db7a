//! Fields of one number of at most four bytes.
ghost use Rattle.std.specs.Prelude.{◌≡◌, IfSome, option_map};
ghost use Rattle.fit_profile.specs.Names.{meaning};
ghost use Rattle.fit_numbers.specs.Scaled.{IsScale};
ghost use Rattle.fit_cells.specs.Forms.{IsFormOf, IsSmallForm};

use fit_base::Code;
use fit_cells::{NumberForm, number_form};
use fit_profile::Info;

/// The form of a lone number of a field, where the field has as many bytes as it.
pub(crate) fn lone_form(code: u8, size: u8, info: Option<Info>) -> Option<NumberForm>
    requires { IfSome info (λ i. IsScale i.scale) }
    ensures small { IfSome result IsSmallForm }
    ensures width { IfSome result (λ f. f.width ≡ size) }
    ensures form { IfSome result (IsFormOf code (option_map meaning info)) }
{
    if Code(code).width() != size {
        return None;
    }
    number_form(Code(code), info)
}
