use cv_base::NoMemory;
use std::alloc::Global;

/// The input of a scan: an image of these layers, a digit of the digest for each, and lines of records.
pub fn scan_input(alloc: Global, layers: &str, records: &str) -> Result<String, NoMemory> {
    let mut input = String::new(alloc);
    push_image(&mut input, layers)?;
    input.push_str(records)?;
    Ok(input)
}

fn push_image(input: &mut String, layers: &str) -> Result<(), NoMemory> {
    input.push_str(r#"{"hash":"<1>","layers":["#)?;
    for (index, layer) in layers.chars().enumerate() {
        let comma = if index == 0 { "" } else { "," };
        input.push_str(comma)?;
        push_layer(input, layer)?;
    }
    input.push_str("]}\n")?;
    Ok(())
}

fn push_layer(input: &mut String, layer: char) -> Result<(), NoMemory> {
    input.push_str(r#"{"hash":"<"#)?;
    input.push(layer)?;
    input.push_str(r#">"}"#)?;
    Ok(())
}
