// One line of a file of rows.

/// What a line says of a file of the store. The texts are those behind the line's first word.
#[derive(Clone, Copy)]
pub enum FileSetting<'a> {
    Text(&'a str),
    LastLog(&'a str),
    FromCall(&'a str),
    GoneAt(&'a str),
    Endless(&'a str),
}

/// What a line of a row sets. The texts are those behind the line's first word.
#[derive(Clone, Copy)]
pub enum Setting<'a> {
    /// The row's own lines begin, and it has this name.
    Name(&'a str),
    Words(&'a str),
    Word(&'a str),
    File(FileSetting<'a>),
    StoreFails(&'a str),
    OutFails(&'a str),
    LogFails(&'a str),
    EachFails(&'a str),
    StoreLacks,
    OutLacks,
    LogLacks,
    Status(&'a str),
    Plain,
    Out,
    Log,
    AnyLog,
    /// A line of text, with the sign that it begins with.
    Text(&'a str),
}

/// A line.
#[derive(Clone, Copy)]
pub enum Line<'a> {
    /// A comment, or an empty line.
    Nothing,
    /// What follows is given to each row behind it.
    Given,
    /// A row of this name begins.
    Row(&'a str),
    /// It belongs to what is given, or to a row.
    Setting(Setting<'a>),
}

/// What a line is, if it is one of a file of rows.
pub fn read_line(line: &str) -> Option<Line<'_>> {
    if line.is_empty() || line.starts_with('#') {
        return Some(Line::Nothing);
    }
    if line.starts_with('|')
        || line.starts_with('.')
        || line.starts_with('*')
        || line.starts_with('+')
        || line.starts_with('%')
    {
        return Some(Line::Setting(Setting::Text(line)));
    }
    match line.split_once(' ') {
        Some(("any", "log")) => Some(Line::Setting(Setting::AnyLog)),
        Some(("row", name)) => Some(Line::Row(name)),
        Some((first, rest)) => read_setting(first, rest).map(Line::Setting),
        None => read_word(line),
    }
}

// A line of one word.
fn read_word(line: &str) -> Option<Line<'_>> {
    match line {
        "given" => Some(Line::Given),
        "word" => Some(Line::Setting(Setting::Word(""))),
        "plain" => Some(Line::Setting(Setting::Plain)),
        "store-lacks" => Some(Line::Setting(Setting::StoreLacks)),
        "out-lacks" => Some(Line::Setting(Setting::OutLacks)),
        "log-lacks" => Some(Line::Setting(Setting::LogLacks)),
        "out" => Some(Line::Setting(Setting::Out)),
        "log" => Some(Line::Setting(Setting::Log)),
        _ => None,
    }
}

// What this first word sets to the text behind it.
fn read_setting<'a>(first: &str, rest: &'a str) -> Option<Setting<'a>> {
    match first {
        "words" => Some(Setting::Words(rest)),
        "word" => Some(Setting::Word(rest)),
        "file" => Some(Setting::File(FileSetting::Text(rest))),
        "last-log" => Some(Setting::File(FileSetting::LastLog(rest))),
        "from-call" => Some(Setting::File(FileSetting::FromCall(rest))),
        "gone-at" => Some(Setting::File(FileSetting::GoneAt(rest))),
        "endless" => Some(Setting::File(FileSetting::Endless(rest))),
        "store-fails" => Some(Setting::StoreFails(rest)),
        "out-fails" => Some(Setting::OutFails(rest)),
        "log-fails" => Some(Setting::LogFails(rest)),
        "each-fails" => Some(Setting::EachFails(rest)),
        "status" => Some(Setting::Status(rest)),
        _ => None,
    }
}
