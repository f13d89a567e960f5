// The number of an answer, as lines show it.
ghost use Rattle.std.specs.Prelude.{◌≡◌};
ghost use Rattle.model.specs.Answer.{number as number_of};

use model::Answer;
use word::Named;

pub fn number(a: Answer) -> u32
    ensures { result ≡ number_of a }
{
    match a {
        Ok(_) => 0,
        Err(f) => Named::from(f).number,
    }
}
