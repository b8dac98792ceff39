// The node table of a list, printed as numbers and as a drawing.
use bits::SetBits;
use landmark::read_list;
use link::Node;
use std::{fmt, iter};

// A table of as many entries as the list may need.
pub fn room(rt: &HostRuntime, list: &[u8]) -> anyhow::Result<Vec<Node>> {
    let run_bytes = read_list(list).map_or(0, |counts| counts.run_bytes);
    Ok(vec![in rt.alloc(); Node::ROOT; run_bytes.saturating_add(1)]?)
}

// A node with its number.
#[derive(Clone, Copy)]
pub struct Row {
    number: usize,
    node: Node,
}

// Node, depth, byte, first, next, back, mask.
impl fmt::Display for Row {
    fn fmt<W: fmt::Write>(&self, f: &mut fmt::Formatter<W>) -> fmt::Result {
        let number = self.number;
        let Node {
            depth,
            byte,
            first,
            next,
            back,
            mask,
        } = self.node;
        write!(f, "{number} {depth} {byte} {first} {next} {back} {mask}")
    }
}

// Hands the entries in use of the list's table on, or prints why there is no table.
fn with_table<F: FnOnce(&HostRuntime, &[Node]) -> anyhow::Result<()>>(
    rt: &HostRuntime,
    list: &[u8],
    print: F,
) -> anyhow::Result<()>
    requires { F.IsAlwaysCallable print }
{
    let mut nodes = room(rt, list)?;
    match link::build(list, nodes.as_mut_slice()) {
        Ok(used) => {
            nodes.truncate(used);
            print(rt, nodes.as_slice())
        }
        Err(fault) => {
            println!(rt; "refused {fault}")?;
            Ok(())
        }
    }
}

// One line an entry in use, or the refusal.
pub fn print_table(rt: &HostRuntime, list: &[u8]) -> anyhow::Result<()> {
    with_table(rt, list, |rt, nodes| {
        for (number, node) in nodes.iter().enumerate() {
            let row = Row {
                number,
                node: *node,
            };
            println!(rt; "{row}")?;
        }
        Ok(())
    })
}

// A node as Graphviz draws it: its byte, and the words that end there.
#[derive(Clone, Copy)]
pub struct Drawn(Row);

impl fmt::Display for Drawn {
    fn fmt<W: fmt::Write>(&self, f: &mut fmt::Formatter<W>) -> fmt::Result {
        let number = self.0.number;
        let byte = self.0.node.byte;
        if number == 0 {
            return f.write_str("  n0 [label=\"root\"];");
        }
        write!(f, "  n{number} [label=\"{byte:02x}")?;
        for word in SetBits(self.0.node.mask) {
            write!(f, "\\nword {word}")?;
        }
        f.write_str("\"];")
    }
}

// The node of this number, and none for 0.
fn linked(nodes: &[Node], number: u16) -> Option<(u16, Node)> {
    let node = nodes.get(number as usize)?;
    (number != 0).then_some((number, *node))
}

// The links from one node: to its children, and its back link dashed.
fn print_links(rt: &HostRuntime, nodes: &[Node], number: usize, node: Node) -> anyhow::Result<()> {
    let children = iter::successors(linked(nodes, node.first), |(_, child)| {
        linked(nodes, child.next)
    });
    for (child, _) in children.take(nodes.len()) {
        println!(rt; "  n{number} -> n{child};")?;
    }
    if number != 0 {
        let back = node.back;
        println!(rt; "  n{number} -> n{back} [style=dashed];")?;
    }
    Ok(())
}

// The nodes and their links for Graphviz.
fn draw(rt: &HostRuntime, nodes: &[Node]) -> anyhow::Result<()> {
    println!(rt; "digraph landmarks {{\n  rankdir=LR;")?;
    for (number, node) in nodes.iter().enumerate() {
        let drawn = Drawn(Row {
            number,
            node: *node,
        });
        println!(rt; "{drawn}")?;
    }
    for (number, node) in nodes.iter().enumerate() {
        print_links(rt, nodes, number, *node)?;
    }
    println!(rt; "}}")?;
    Ok(())
}

// The automaton for Graphviz, or the refusal.
pub fn print_drawing(rt: &HostRuntime, list: &[u8]) -> anyhow::Result<()> {
    with_table(rt, list, draw)
}
