// The keys of a row.
ghost use Rattle.std.specs.Prelude.{◌≡◌, not, string_bytes};
ghost use Rattle.std.specs.List.{list_any};
ghost use Rattle.std.specs.Map.{keys_of};
ghost use Rattle.toml.specs.View.{table_view};
ghost use Rattle.session_table.specs.Keys.{key_name, is_named, has_other};

use pump_frame::RowKey;
use toml::Table as Members;

/// The keys that a row may have, in the order in which they are looked at. `Coarse` alone may be left
/// out.
pub(crate) const ROW_KEYS: [RowKey; 12] = [
    RowKey::Id,
    RowKey::Low,
    RowKey::High,
    RowKey::Capacity,
    RowKey::Message,
    RowKey::Window,
    RowKey::Start,
    RowKey::Longest,
    RowKey::Resend,
    RowKey::LowPort,
    RowKey::HighPort,
    RowKey::Coarse,
];

/// A key's name in a document.
pub(crate) fn key_name(key: RowKey) -> &'static str
    ensures { result.now ≡ key_name key }
{
    match key {
        RowKey::Session => "session",
        RowKey::Id => "id",
        RowKey::Low => "low",
        RowKey::High => "high",
        RowKey::Capacity => "capacity",
        RowKey::Message => "message",
        RowKey::Window => "window",
        RowKey::Start => "start",
        RowKey::Longest => "longest",
        RowKey::Resend => "resend",
        RowKey::LowPort => "low_port",
        RowKey::HighPort => "high_port",
        RowKey::Coarse => "coarse",
    }
}

fn is_named(keys: &[RowKey], name: &str) -> bool
    ensures { result ≡ is_named keys.now name.now }
{
    keys.iter().any(|key| name == key_name(*key))
}

// What `has_other` says, in the words of the document's own map.
fn has_unnamed(keys: &[RowKey], members: &Members) -> bool
    ensures { result ≡ list_any (λ name. not (is_named keys.now (string_bytes name))) (keys_of members.now.entries) }
{
    members.keys().any(|name| !is_named(keys, name.as_str()))
}

/// Whether a table has a key that is none of these.
pub(crate) fn has_other(keys: &[RowKey], members: &Members) -> bool
    ensures { result ≡ has_other keys.now (table_view members.now) }
{
    has_unnamed(keys, members)
}
