//! What a sheet says, in one line.
use parts::Part;
use roster::{Post, Signal};
use rule::Rule;
use sheet::Sheet;

/// Prints items, each as `print` does, with a space before the first and a comma before each other.
fn print_items<T, F: Fn(&T) -> anyhow::Result<()>>(
    rt: &impl Print,
    items: &[T],
    print: F,
) -> anyhow::Result<()>
    requires { F.IsAlwaysCallable print }
{
    for (i, item) in items.iter().enumerate() {
        let before = if i == 0 { " " } else { "," };
        print!(rt; "{before}")?;
        print(item)?;
    }
    Ok(())
}

/// Prints a post's name.
fn print_post(rt: &impl Print, post: &Post) -> anyhow::Result<()> {
    let name = post.name.as_bytes().escape_ascii();
    print!(rt; "{name}")?;
    Ok(())
}

/// Prints a signal's name with the number of its owner.
fn print_signal(rt: &impl Print, signal: &Signal) -> anyhow::Result<()> {
    let name = signal.name.as_bytes().escape_ascii();
    let owner = signal.owner;
    print!(rt; "{name}:{owner}")?;
    Ok(())
}

/// Prints a part, its operands by their numbers.
fn print_part(rt: &impl Print, part: Part) -> anyhow::Result<()> {
    match part {
        Part::Const(value) => print!(rt; " {value}")?,
        Part::Signal(p) => print!(rt; " p{p}")?,
        Part::Open(p, tick) => print!(rt; " p{p}@{tick}")?,
        Part::One(sign, a) => print!(rt; " {sign}{a}")?,
        Part::Two(sign, a, b) => print!(rt; " {a}{sign}{b}")?,
    }
    Ok(())
}

/// Prints the parts of a rule in the walk's order.
fn print_rule(rt: &impl Print, rule: &Rule) -> anyhow::Result<()> {
    for part in rule.formula().parts() {
        print_part(rt, *part)?;
    }
    Ok(())
}

/// Prints a sheet.
pub(crate) fn print_sheet(rt: &impl Print, sheet: &Sheet) -> anyhow::Result<()> {
    print!(rt; "posts")?;
    print_items(rt, sheet.posts(), |post| print_post(rt, post))?;
    print!(rt; " signals")?;
    print_items(rt, sheet.signals(), |signal| print_signal(rt, signal))?;
    print!(rt; " rule")?;
    print_rule(rt, sheet.rule())?;
    println!(rt; "")?;
    Ok(())
}
