// Where the first fault of a template alone stands: a line of a script tells only that there is one.
use crate::compare::expect_at;
use program_read::{ReadFault, read_widget};
use std::alloc::{AllocError, Global};
use std::test::Fail;

// The first fault of a template, where it has one.
fn fault_of(alloc: Global, text: &str) -> Option<ReadFault> {
    read_widget(alloc, text.as_bytes(), 1).err()
}

// What a template reads as: `read`, `json`, or the code and the place of its first fault.
fn told(alloc: Global, fault: &Option<ReadFault>) -> Result<String, AllocError> {
    match fault {
        None => String::from_str(alloc, "read"),
        Some(ReadFault::Json) => String::from_str(alloc, "json"),
        Some(ReadFault::Shape { code, place }) => format!(in alloc; "{code} {}", place.get()),
        Some(ReadFault::OutOfMemory) => Err(AllocError),
    }
}

const TEMPLATES: [(&str, &str); 4] = [
    (
        r#"{"w":"Detector","tap":[],"pan":[["set","n",["event","dy"]]]}"#,
        "read",
    ),
    (r#"{"w":"Detector","tap":[["set","n",0.5]]}"#, "8 /tap/0/2"),
    (r#"{"x":1}"#, "1 "),
    (r#"{"w":"Text""#, "json"),
];

#[test]
fn templates_alone_have_places_of_their_own(rt: HostRuntime) -> Result<(), Fail> {
    for (text, want) in TEMPLATES {
        let fault = fault_of(rt.alloc(), text);
        expect_at(&rt, told(rt.alloc(), &fault)?.as_str(), want, &text);
    }
    Ok(())
}
