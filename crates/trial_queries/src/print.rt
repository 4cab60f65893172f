//! Answers as text: each list in brackets, values as JSON writes them, objects by the number that their id is, fields in
//! their order with all their forms, a fault by `!` and its number.

use eql_sem::{Form, FormField, Formed};
use ev_value::{Fault, Item, Val};
use std::alloc::{AllocError, Global};

/// A text that grows.
#[derive(Drop)]
struct Printer {
    text: String,
}

fn fault_number(fault: Fault) -> u8 {
    match fault {
        Fault::IntOverflow => 1,
        Fault::DivisionByZero => 2,
        Fault::CastText => 3,
        Fault::AssertSingle => 4,
        Fault::AssertExists => 5,
        Fault::AssertDistinct => 6,
        Fault::NegativeLimit => 7,
    }
}

impl Printer {
    fn write(&mut self, text: &str) -> Result<(), AllocError> {
        self.text.push_str(text)
    }

    // The separator in front of all but the first part.
    fn next(&mut self, first: bool) -> Result<(), AllocError> {
        if first { Ok(()) } else { self.write(",") }
    }

    #[cycle(value)]
    fn value(&mut self, alloc: Global, value: &Val) -> Result<(), AllocError> {
        match value {
            Val::Int(number) => self.write(format!(in alloc; "{number}")?.as_str()),
            Val::Str(text) => self.write(format!(in alloc; "'{}'", text.as_str())?.as_str()),
            Val::Bool(true) => self.write("true"),
            Val::Bool(false) => self.write("false"),
            Val::Id(id) => self.write(format!(in alloc; "id {id}")?.as_str()),
            Val::Obj(id) => self.write(format!(in alloc; "#{id}")?.as_str()),
            Val::Tuple(parts) => self.values(alloc, parts.as_slice(), "(", ")"),
            Val::Array(elements) => self.values(alloc, elements.as_slice(), "[", "]"),
        }
    }

    #[cycle(value)]
    fn values(
        &mut self,
        alloc: Global,
        values: &[Val],
        open: &str,
        close: &str,
    ) -> Result<(), AllocError> {
        self.write(open)?;
        let mut first = true;
        for value in values {
            self.next(first)?;
            first = false;
            self.value(alloc, value)?;
        }
        self.write(close)
    }

    #[cycle(form)]
    fn form(&mut self, alloc: Global, form: &Form) -> Result<(), AllocError> {
        match form {
            Form::Value(value) => self.value(alloc, value),
            Form::Tuple(forms) => self.forms(alloc, forms.as_slice()),
            Form::Shape(fields) => self.fields(alloc, fields.as_slice()),
        }
    }

    #[cycle(form)]
    fn forms(&mut self, alloc: Global, forms: &[Form]) -> Result<(), AllocError> {
        self.write("[")?;
        let mut first = true;
        for form in forms {
            self.next(first)?;
            first = false;
            self.form(alloc, form)?;
        }
        self.write("]")
    }

    #[cycle(form)]
    fn fields(&mut self, alloc: Global, fields: &[FormField]) -> Result<(), AllocError> {
        self.write("{")?;
        let mut first = true;
        for field in fields {
            self.next(first)?;
            first = false;
            self.write(field.name.as_str())?;
            self.write(":")?;
            self.forms(alloc, field.forms.as_slice())?;
        }
        self.write("}")
    }

    fn items(&mut self, alloc: Global, items: &[Item<Formed>]) -> Result<(), AllocError> {
        self.write("[")?;
        let mut first = true;
        for item in items {
            self.next(first)?;
            first = false;
            match item {
                Item::Value(formed) => self.form(alloc, &formed.form)?,
                Item::Fault(fault) => {
                    let number = fault_number(*fault);
                    self.write(format!(in alloc; "!{number}")?.as_str())?
                }
            }
        }
        self.write("]")
    }
}

/// The items as text.
pub fn printed(alloc: Global, items: &[Item<Formed>]) -> Result<String, AllocError> {
    let mut printer = Printer {
        text: String::new(alloc),
    };
    printer.items(alloc, items)?;
    Ok(printer.text)
}
