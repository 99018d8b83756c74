//! Elements of each kind, with what stands for markup in what they show.

use crate::element::{Attribute, Value, put_group, put_label, put_shape};
use std::alloc::{AllocError, Global};

fn text_of(alloc: Global) -> Result<String, AllocError> {
    let class = Attribute {
        name: "class",
        value: Value::Word("a\"b"),
    };
    let x = Attribute {
        name: "x",
        value: Value::Number(30),
    };
    let mut inner = String::new(alloc);
    put_shape(&mut inner, "line", &[class, x])?;
    put_label(&mut inner, "text", &[x], b"a<b & \"c\">\t\xff\n~")?;
    let mut text = String::new(alloc);
    put_group(&mut text, "g", &[], inner.as_str())?;
    Ok(text)
}

/// By hand, of the rules of XML.
const WANTED: &str = "<g><line class=\"a&quot;b\" x=\"30\"></line>
<text x=\"30\">a&lt;b &amp; &quot;c&quot;&gt;\\9\\255
~</text>
</g>
";

#[test]
fn elements_are_closed_and_bytes_escaped(rt: HostRuntime) {
    match text_of(rt.alloc()) {
        Ok(text) => assert!(&rt; text.as_str() == WANTED),
        Err(_) => panic!(&rt; "no memory"),
    }
}
