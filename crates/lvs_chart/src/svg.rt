//! The text of a picture: whole elements and the pieces of paths.
use crate::panel::WIDTH;
use crate::style::STYLE;
use itoa::Buffer;
use lvs_types::NoMemory;
use std::alloc::Global;
use std::fmt::Write;

/// A picture that is being written.
#[derive(Drop)]
pub(crate) struct Svg {
    text: String,
}

/// Where a text stands at its place.
#[derive(Clone, Copy)]
pub(crate) enum Anchor {
    Start,
    Middle,
    End,
}

impl Anchor {
    fn name(self) -> &'static str {
        match self {
            Anchor::Start => "start",
            Anchor::Middle => "middle",
            Anchor::End => "end",
        }
    }
}

impl Svg {
    /// The beginning of a picture of that height.
    pub(crate) fn begin(alloc: Global, height: u64) -> Result<Svg, NoMemory> {
        let mut svg = Svg {
            text: String::new(alloc),
        };
        svg.put("<?xml version=\"1.0\" encoding=\"UTF-8\"?>\n")?;
        write!(
            svg.text,
            "<svg xmlns=\"http://www.w3.org/2000/svg\" version=\"1.1\" width=\"{WIDTH}\" height=\"{height}\" viewBox=\"0 0 {WIDTH} {height}\">\n"
        )?;
        svg.put("<title>A run of ipvsd</title>\n")?;
        svg.put(STYLE)?;
        svg.put("<rect class=\"ground\" width=\"100%\" height=\"100%\"/>\n")?;
        Ok(svg)
    }

    /// What was written.
    pub(crate) fn into_bytes(self) -> Vec<u8> {
        self.text.into_bytes()
    }

    /// Text as it stands.
    pub(crate) fn put(&mut self, text: &str) -> Result<(), NoMemory> {
        self.text.push_str(text)?;
        Ok(())
    }

    /// A number in decimal digits.
    pub(crate) fn put_number(&mut self, number: u64) -> Result<(), NoMemory> {
        self.put(Buffer::new().format(number))
    }

    /// Text between tags, in which a sign of the language is escaped and a control character is
    /// shown as a question mark.
    fn put_escaped(&mut self, text: &str) -> Result<(), NoMemory> {
        for letter in text.chars() {
            match letter {
                '<' => self.text.push_str("&lt;")?,
                '>' => self.text.push_str("&gt;")?,
                '&' => self.text.push_str("&amp;")?,
                '\u{0}'..='\u{1f}' | '\u{7f}'..='\u{9f}' | '\u{fffe}' | '\u{ffff}' => {
                    self.text.push('?')?
                }
                _ => self.text.push(letter)?,
            }
        }
        Ok(())
    }

    /// A line of text of a class.
    pub(crate) fn put_text(
        &mut self,
        class: &str,
        anchor: Anchor,
        x: u64,
        y: u64,
        text: &str,
    ) -> Result<(), NoMemory> {
        let anchor = anchor.name();
        write!(
            self.text,
            "<text class=\"{class}\" text-anchor=\"{anchor}\" x=\"{x}\" y=\"{y}\">"
        )?;
        self.put_escaped(text)?;
        self.put("</text>\n")
    }

    /// A number as a text.
    pub(crate) fn put_label(
        &mut self,
        anchor: Anchor,
        x: u64,
        y: u64,
        number: u64,
    ) -> Result<(), NoMemory> {
        self.put_text("label", anchor, x, y, Buffer::new().format(number))
    }

    /// A straight line of a class.
    pub(crate) fn put_line(
        &mut self,
        class: &str,
        from: (u64, u64),
        to: (u64, u64),
    ) -> Result<(), NoMemory> {
        let (x1, y1) = from;
        let (x2, y2) = to;
        write!(
            self.text,
            "<line class=\"{class}\" x1=\"{x1}\" y1=\"{y1}\" x2=\"{x2}\" y2=\"{y2}\"/>\n"
        )?;
        Ok(())
    }

    /// Begins a path.
    pub(crate) fn move_to(&mut self, x: u64, y: u64) -> Result<(), NoMemory> {
        self.put("M")?;
        self.put_number(x)?;
        self.put(" ")?;
        self.put_number(y)
    }

    /// Goes on to a column, and along it to a row.
    pub(crate) fn step_to(&mut self, x: u64, y: u64) -> Result<(), NoMemory> {
        self.put("H")?;
        self.put_number(x)?;
        self.put("V")?;
        self.put_number(y)
    }
}
