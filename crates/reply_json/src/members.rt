ghost use Rattle.std.specs.Prelude.{◌≡◌, OnOk};
ghost use Rattle.serde_json.specs.Data.{number, put, string, unsigned};
ghost use Rattle.serde_json.specs.View.{members_view};

use serde_json::{Map, Value as Json};
use std::alloc::{AllocError, Global};

/// Puts a number into an object.
pub(crate) fn put_number(
    members: &mut Map<String, Json>,
    alloc: Global,
    key: &str,
    count: u64,
) -> Result<(), AllocError>
    ensures { OnOk result (members_view members.new.entries ≡ put key.now (number (unsigned count)) (members_view members.old.entries)) }
{
    serde_json::put(members, alloc, key, Json::from(count))
}

/// Puts a text into an object.
pub(crate) fn put_text(
    members: &mut Map<String, Json>,
    alloc: Global,
    key: &str,
    text: &str,
) -> Result<(), AllocError>
    ensures { OnOk result (members_view members.new.entries ≡ put key.now (string text.now) (members_view members.old.entries)) }
{
    let text = Json::try_from_str(alloc, text)?;
    serde_json::put(members, alloc, key, text)
}
