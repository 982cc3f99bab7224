//! The task that the words of the command line give.

/// The operation that is measured.
#[derive(Drop)]
pub enum Task {
    Write,
    Read,
}

/// A task, over a state of this size, and how often.
#[derive(Drop)]
pub struct Line {
    pub task: Task,
    pub files: u32,
    pub units: u32,
    pub times: u32,
}

/// The line in the words after the program's name; None if they are no such line.
pub fn read_line(words: &[String]) -> Option<Line> {
    let [_, task, files, units, times] = words else {
        return None;
    };
    let task = match task.as_str() {
        "write" => Task::Write,
        "read" => Task::Read,
        _ => return None,
    };
    Some(Line {
        task,
        files: files.as_str().parse::<u32>().ok()?,
        units: units.as_str().parse::<u32>().ok()?,
        times: times.as_str().parse::<u32>().ok()?,
    })
}
