// Lines of fields, `name=value`, with one space between two.
// The value of the first field of a name, if the line has one.
pub fn field<'a>(line: &'a str, name: &str) -> Option<&'a str> {
    line.split(' ')
        .filter_map(|word| word.split_once('='))
        .find(|(before, _)| *before == name)
        .map(|(_, value)| value)
}
