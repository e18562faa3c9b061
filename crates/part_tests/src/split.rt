// Scripts, and the sections and pieces that they have.
use lb_split::{Piece, ScriptFault, Section, Span, resume, sections, split, text_at};
use std::alloc::{AllocError, Global};

/// The sections as a text: a line for each, with its kind, user and groups, and after each `|` a statement.
/// The number of the line where the form is broken. Scripts here have at most 4096 bytes.
fn shown(alloc: Global, script: &[u8]) -> Result<String, AllocError> {
    if script.len() > 4096 {
        return Err(AllocError);
    }
    match sections(alloc, script) {
        Ok(read) => {
            let mut out = String::new(alloc);
            if let Some(setup) = &read.setup {
                add_section(&mut out, "SETUP", script, setup)?;
            }
            for section in read.sessions.as_slice() {
                add_section(&mut out, "SESSION", script, section)?;
            }
            Ok(out)
        }
        Err(ScriptFault::BadScript(line)) => format!(in alloc; "line {line}"),
        Err(ScriptFault::NoMemory) => Err(AllocError),
    }
}

fn add_section(
    out: &mut String,
    kind: &str,
    script: &[u8],
    section: &Section,
) -> Result<(), AllocError> {
    out.push_str(kind)?;
    out.push_str(" ")?;
    out.push_str(section.user.as_str())?;
    for group in section.groups.as_slice() {
        out.push_str(" ")?;
        out.push_str(group.as_str())?;
    }
    for span in section.statements.as_slice() {
        out.push_str("|")?;
        out.push_str(text_of(script, *span))?;
    }
    out.push_str("\n")
}

fn text_of(script: &[u8], span: Span) -> &str {
    std::str::from_utf8(text_at(script, span)).unwrap_or("?")
}

const SIXTEEN: &str = "G1 G2 G3 G4 G5 G6 G7 G8 G9 G10 G11 G12 G13 G14 G15 G16";

/// Scripts, and what they are shown as.
const SCRIPTS: &[(&str, &str)] = &[
    ("", ""),
    (" \t\r\n-- only 'a comment", ""),
    (";; -- a\n ;", ""),
    ("@SESSION ANN\n;\n", "SESSION ANN\n"),
    ("@SESSION ANN\nSELECT 'a", "SESSION ANN|SELECT 'a\n"),
    ("SELECT ID FROM T;\n", "line 1"),
    ("\n-- note\n\n  SELECT 1", "line 2"),
    ("\n;\n\n  SELECT 1", "line 4"),
    ("-- note\n@SESSION ANN\n", "SESSION ANN\n"),
    ("\n\nQUIT;\n@SESSION ANN\n", "line 3"),
    ("@SESSION ANN\nQUIT;garbage\n", "SESSION ANN\n"),
    ("@SESSION ANN\r\nA;B\r\n", "SESSION ANN|A|B\r\n\n"),
    ("@SESSION ANN\r", "line 1"),
    ("@SESSION ANN\r\r\n", "line 1"),
    ("@SESSION\tann  \t groups  a b\t\n", "SESSION ANN A B\n"),
    (
        "@session user GROUPS select A A",
        "SESSION USER SELECT A A\n",
    ),
    ("@SESSION GROUPS GROUPS A", "SESSION GROUPS A\n"),
    ("@SESSION GROUPS GROUPS", "line 1"),
    ("@SESSION ANN TEAM A", "line 1"),
    ("@SESSION ANN\n@ SESSION ANN\n", "line 2"),
    ("@SESSION\n", "line 1"),
    ("@SESSIONS ANN\n", "line 1"),
    ("@SESSION 1A\n", "line 1"),
    ("@SESSION ANN GROUPS A-B\n", "line 1"),
    ("@SESSION ANN\n@\n@SETUP B\n", "line 2"),
    (
        "@SETUP S\nA;\n@SESSION ANN GROUPS G\nB;C",
        "SETUP S|A\nSESSION ANN G|B|C\n",
    ),
    ("@SETUP S\n@SETUP T\n", "line 2"),
    ("@SESSION A\nA;\n@SETUP S\n@X\n", "line 3"),
    (
        "@SESSION A\nA; @SESSION B\nB;@SESSION C\n",
        "SESSION A|A\nSESSION B|B\nSESSION C\n",
    ),
    (
        "@SESSION A\nB @SESSION C\n;D",
        "SESSION A|B @SESSION C\n|D\n",
    ),
    (
        "@SESSION A\nQUIT\n@SESSION B\n;C",
        "SESSION A|QUIT\n@SESSION B\n|C\n",
    ),
    (
        "@SESSION A\nQUIT;@SESSION B\nC;\n@SESSION D\nE",
        "SESSION A\nSESSION D|E\n",
    ),
    (
        "@SESSION A\nQUIT;\n @SESSION B\n@SESSION C\r\nD",
        "SESSION A\nSESSION C|D\n",
    ),
    (
        "@SESSION A\n-- one ;'\n qUiT -- two; '\n --three\n ; B\n@SESSION C\n",
        "SESSION A\nSESSION C\n",
    ),
    ("@SESSION A\nquit--x\n", "SESSION A\n"),
    (
        "@SESSION A\nQUITS;QU--\nIT;QUIT 1;Q UIT",
        "SESSION A|QUITS|QU--\nIT|QUIT 1|Q UIT\n",
    ),
    ("@SESSION A\nQUIT;\n@SESSIONS B\n", "line 3"),
    ("@SESSION A\nA -- b;c\nD;E", "SESSION A|A -- b;c\nD|E\n"),
    ("@SESSION A\n-- it's\nB;C", "SESSION A|-- it's\nB|C\n"),
    (
        "@SESSION A\nB 'x;--' ;C 'it''s;' - -1;D",
        "SESSION A|B 'x;--' |C 'it''s;' - -1|D\n",
    ),
    (
        "@SESSION A\n'B\n@SESSION C\n;'; ; D",
        "SESSION A|'B\n@SESSION C\n;'|D\n",
    ),
    (
        "@SESSION A\n\t -- note\nSELECT FROM T ; ",
        "SESSION A|-- note\nSELECT FROM T \n",
    ),
];

#[test]
fn scripts_have_their_sections(rt: HostRuntime) -> Result<(), AllocError> {
    let alloc = rt.alloc();
    for case in SCRIPTS {
        let (script, want) = *case;
        let told = shown(alloc, script.as_bytes())?;
        assert_eq!(rt; told.as_str(), want, "for {script:?}");
    }
    Ok(())
}

#[test]
fn headers_name_up_to_sixteen_groups(rt: HostRuntime) -> Result<(), AllocError> {
    let alloc = rt.alloc();
    let sixteen = format!(in alloc; "@SESSION ANN GROUPS {SIXTEEN}\n")?;
    let seventeen = format!(in alloc; "@SESSION ANN GROUPS {SIXTEEN} G17\n")?;
    let told = shown(alloc, sixteen.as_bytes())?;
    let want = format!(in alloc; "SESSION ANN {SIXTEEN}\n")?;
    assert_eq!(rt; told.as_str(), want.as_str());
    let told = shown(alloc, seventeen.as_bytes())?;
    assert_eq!(rt; told.as_str(), "line 1");
    Ok(())
}

#[test]
fn pieces_have_their_offsets(rt: HostRuntime) {
    let script = b" -- a\n@SETUP A\r\n ;; B -- ;\n;\tquit ;x\n@ \nC";
    let cases = [
        (0, Piece::Header(6, 14), 16),
        (14, Piece::Statement(20, 27), 28),
        (16, Piece::Statement(20, 27), 28),
        (28, Piece::Quit(29, 34), 37),
        (34, Piece::Statement(35, 41), 41),
        (35, Piece::Statement(35, 41), 41),
        (37, Piece::Header(37, 39), 40),
        (40, Piece::Statement(40, 41), 41),
        (41, Piece::End, 41),
    ];
    for (from, want, behind) in cases {
        if from as usize <= script.len() {
            let piece = split(script, from);
            assert_eq!(rt; piece, want, "from {from}");
            assert_eq!(rt;
                resume(script, piece),
                behind,
                "behind the piece from {from}"
            );
        }
    }
}
