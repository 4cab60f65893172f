//! The form of arguments.
ghost use Rattle.std.specs.Prelude.{◌≡◌, option_map};
ghost use Rattle.serde_json.specs.View.{view, members_view};
ghost use Rattle.db_load.specs.Sections.{sections as sections_in_data, sections_from, no_sections, put as put_section};
ghost use Rattle.db_load.specs.Views.{seen};

use serde_json::{Map, Value};
use std::alloc::Global;

/// The two objects: the values of globals, and those of parameters, each under its name.
#[derive(Drop)]
pub struct Sections {
    pub globals: Map<String, Value>,
    pub params: Map<String, Value>,
}

/// One more object under a key. None where the key is neither of the two.
fn put(sections: Sections, key: &str, map: Map<String, Value>) -> Option<Sections>
    ensures { option_map seen result ≡ put_section (seen sections) key.now (members_view map.entries) }
{
    let Sections { globals, params } = sections;
    if key == "globals" {
        Some(Sections {
            globals: map,
            params,
        })
    } else if key == "params" {
        Some(Sections {
            globals,
            params: map,
        })
    } else {
        None
    }
}

/// What stands under the two keys. None where another key stands there, or something else than an object.
fn sections_in(alloc: Global, map: Map<String, Value>) -> Option<Sections>
    ensures { option_map seen result ≡ sections_from no_sections (members_view map.entries) }
{
    let mut sections = Sections {
        globals: Map::new(alloc),
        params: Map::new(alloc),
    };
    for (key, value) in map {
        match value {
            Value::Object(inner) => match put(sections, key.as_str(), inner) {
                Some(next) => sections = next,
                None => return None,
            },
            Value::Null | Value::Bool(_) | Value::Number(_) | Value::String(_) | Value::Array(_) =>
                return None,
        }
    }
    Some(sections)
}

/// The two objects of arguments. None where the value has not the form of them.
pub fn sections_of(alloc: Global, value: Value) -> Option<Sections>
    ensures { option_map seen result ≡ sections_in_data (view value) }
{
    match value {
        Value::Object(map) => sections_in(alloc, map),
        Value::Null | Value::Bool(_) | Value::Number(_) | Value::String(_) | Value::Array(_) =>
            None,
    }
}
