use std::alloc::{AllocError, Global};

/// A line that has to be printed, and the number of the table's line that says so.
#[derive(Drop)]
pub struct Wanted {
    pub line: usize,
    pub text: String,
}

/// A script of the table, and the lines that have to be printed for it.
#[derive(Drop)]
pub struct Case {
    pub script: String,
    pub wanted: Vec<Wanted>,
    /// The number of the table's line that ends the script.
    pub end: usize,
}

impl Case {
    /// Whether the entries have to be printed: a line `entries` stands before them.
    pub fn wants_entries(&self) -> bool {
        self.wanted
            .iter()
            .any(|wanted| wanted.text.as_str() == "entries")
    }
}

/// The line that has to be printed because of line `number` of a script: its comment, where that begins with `>`. Behind
/// a call this is the call's answer, and the printed line begins with the call's number; else it is the printed line.
fn line_for(heap: Global, number: usize, line: &str) -> Result<Option<String>, AllocError> {
    let Some((call, comment)) = line.split_once('#') else {
        return Ok(None);
    };
    let Some(text) = comment.strip_prefix('>') else {
        return Ok(None);
    };
    let text = text.trim();
    if call.trim().is_empty() {
        Ok(Some(String::from_str(heap, text)?))
    } else {
        Ok(Some(format!(in heap; "{number}: {text}")?))
    }
}

/// The scripts of a table. A line `---` ends each of them but the last.
pub fn cases(heap: Global, table: &str) -> Result<Vec<Case>, AllocError> {
    let mut cases = Vec::new(heap);
    let mut script = String::new(heap);
    let mut wanted = Vec::new(heap);
    // The line that ended the script before, and the one behind those that were read.
    let mut before = 0;
    let mut end = 1;
    for (i, line) in table.lines().enumerate() {
        let at = i + 1;
        end = at + 1;
        if line == "---" {
            cases.push(Case {
                script,
                wanted,
                end: at,
            })?;
            script = String::new(heap);
            wanted = Vec::new(heap);
            before = at;
        } else {
            script.push_str(line)?;
            script.push('\n')?;
            if let Some(text) = line_for(heap, at - before, line)? {
                wanted.push(Wanted { line: at, text })?;
            }
        }
    }
    cases.push(Case {
        script,
        wanted,
        end,
    })?;
    Ok(cases)
}
