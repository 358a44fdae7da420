//! The sources that rows write.

use std::alloc::{AllocError, Global};

/// Adds a text, with a line feed for each $ and a number for each #.
fn push(alloc: Global, source: &mut String, text: &str, number: u32) -> Result<(), AllocError> {
    for c in text.chars() {
        match c {
            '$' => source.push('\n')?,
            '#' => {
                let digits = number.to_string(alloc)?;
                source.push_str(digits.as_str())?;
            }
            _ => source.push(c)?,
        }
    }
    Ok(())
}

/// Adds what stands between two backquotes: a number, a blank and a text, the text so many times.
fn push_times(alloc: Global, source: &mut String, part: &str) -> Result<(), AllocError> {
    let Some((count, text)) = part.split_once(' ') else {
        return push(alloc, source, part, 0);
    };
    for number in 0..count.parse::<u32>().unwrap_or(0) {
        push(alloc, source, text, number)?;
    }
    Ok(())
}

/// The source that texts write one after another.
pub fn source(alloc: Global, texts: &[&str]) -> Result<String, AllocError> {
    let mut source = String::new(alloc);
    for text in texts {
        let mut is_repeated = false;
        for part in text.split('`') {
            if is_repeated {
                push_times(alloc, &mut source, part)?;
            } else {
                push(alloc, &mut source, part, 0)?;
            }
            is_repeated = !is_repeated;
        }
    }
    Ok(source)
}
