//! Texts of nested forms, as RFC 8259 and RFC 9562 write them.

use crate::text;
use ev_value::{Field, List, Nested, Text, Val};
use std::alloc::{AllocError, Global};
use std::test::Fail;

fn string(alloc: Global, text: &str) -> Result<Val, AllocError> {
    Ok(Val::Str(Text::from_str(alloc, text)?))
}

fn has_text(alloc: Global, form: &Nested, due: &str) -> Result<bool, AllocError> {
    let bytes = text(alloc, form)?;
    Ok(bytes.as_slice() == due.as_bytes())
}

#[test]
fn writes_each_kind_of_value(rt: HostRuntime) -> Result<(), Fail> {
    let alloc = rt.alloc();
    let id = 0x0000_0000_0000_4000_8000_0000_0000_00ab;
    let mut parts = List::new(alloc);
    parts.push(Val::Int(1))?;
    parts.push(Val::Tuple(List::new(alloc)))?;
    parts.push(Val::Bool(false))?;
    let mut elements = List::new(alloc);
    elements.push(Val::Int(2))?;
    elements.push(Val::Int(-1))?;
    let table = [
        (Nested::Null, "null"),
        (
            Nested::Scalar(Val::Int(-9_223_372_036_854_775_808)),
            "-9223372036854775808",
        ),
        (Nested::Scalar(Val::Bool(true)), "true"),
        (
            Nested::Scalar(string(alloc, "\u{1f}\u{8}\u{c}\n\r\t\"\\/\u{7f}é")?),
            "\"\\u001f\\b\\f\\n\\r\\t\\\"\\\\/\u{7f}é\"",
        ),
        (
            Nested::Scalar(Val::Id(id)),
            "\"00000000-0000-4000-8000-0000000000ab\"",
        ),
        (
            Nested::Scalar(Val::Obj(id)),
            "{\"id\":\"00000000-0000-4000-8000-0000000000ab\"}",
        ),
        (Nested::Scalar(Val::Tuple(parts)), "[1,[],false]"),
        (Nested::Scalar(Val::Array(elements)), "[2,-1]"),
        (Nested::Scalar(Val::Array(List::new(alloc))), "[]"),
        (Nested::Array(List::new(alloc)), "[]"),
    ];
    for (form, due) in &table {
        assert!(rt; has_text(alloc, form, due)?, "{due}");
    }
    Ok(())
}

#[test]
fn writes_keys_in_byte_order(rt: HostRuntime) -> Result<(), Fail> {
    let alloc = rt.alloc();
    let mut fields = List::new(alloc);
    for (name, number) in [("b", 1), ("é", 2), ("B", 3), ("a b", 4), ("", 5)] {
        let name = Text::from_str(alloc, name)?;
        fields.push(Field {
            name,
            form: Nested::Scalar(Val::Int(number)),
        })?;
    }
    let mut forms = List::new(alloc);
    forms.push(Nested::Object(fields))?;
    forms.push(Nested::Object(List::new(alloc)))?;
    let form = Nested::Array(forms);
    assert!(rt;
        has_text(
            alloc,
            &form,
            "[{\"\":5,\"B\":3,\"a b\":4,\"b\":1,\"é\":2},{}]"
        )?
    );
    Ok(())
}
