//! How many sectors are shown of a page that no reading has, as plain text and as a JSON value.
ghost use Rattle.std.specs.Prelude.{◌≡◌};
ghost use Rattle.serde_json.specs.Written.{compact_text};
ghost use Rattle.lab_commands.specs.Document.{Prints};
ghost use Rattle.lab_commands.specs.Lines.{origin_words};
ghost use Rattle.lab_commands.specs.Values.{origin_data};

use crate::output::{Output, OutputFault};
use crate::pieces::put_between;

/// In words, without a line feed.
pub(crate) fn put_origin<W: Output>(out: &mut W, sectors: u64) -> Result<(), OutputFault>
    ensures { Prints (W.failed out.new) (W.contents out.old) (W.contents out.new) (origin_words sectors) result }
{
    put_between(
        out,
        "mended ",
        sectors,
        ": so many sectors are shown of a page that none of the readings has in its row",
    )
}

/// As an object.
pub(crate) fn put_origin_data<W: Output>(out: &mut W, sectors: u64) -> Result<(), OutputFault>
    ensures { Prints (W.failed out.new) (W.contents out.old) (W.contents out.new) (compact_text (origin_data sectors)) result }
{
    put_between(out, "{\"line\":\"origin\",\"mended\":", sectors, "}")
}
