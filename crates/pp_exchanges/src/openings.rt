// Words and texts, and what comes of them.
use crate::opened::open;
use crate::saying::says_nothing;
use pp_run::Exit;
use pp_text::OutOfMemory;
use std::alloc::Global;
use std::test::Fail;

/// How the program is started: the words of a line, the text of the file, and which call fails.
#[derive(Clone, Copy)]
struct Opening<'a> {
    line: &'a str,
    text: &'a [u8],
    failing: Option<u64>,
}

/// How it ends.
#[derive(Clone, Copy)]
struct End {
    exit: Exit,
    status: u8,
}

const SERVED: End = End {
    exit: Exit::Served,
    status: 0,
};

const USED_WRONGLY: End = End {
    exit: Exit::Usage,
    status: 2,
};

const WITHOUT_DISK: End = End {
    exit: Exit::NoDisk,
    status: 4,
};

const WITHOUT_LISTENER: End = End {
    exit: Exit::NoListener,
    status: 5,
};

const WITHOUT_CONFIG: End = End {
    exit: Exit::NoConfig,
    status: 6,
};

/// How it ends otherwise, or goes otherwise than by these parts of its course: nothing is said where it does not.
fn unlike(
    alloc: Global,
    opening: Opening<'_>,
    end: End,
    course: &[&str],
) -> Result<String, OutOfMemory> {
    let line = opening.line;
    let came = open(alloc, line, opening.text, opening.failing)?;
    if came.exit != end.exit || came.exit.status() != end.status {
        return Ok(format!(in alloc; "{line}: it ends with {:?}", came.exit)?);
    }
    let mut wanted = String::new(alloc);
    for part in course {
        wanted.push_str(part)?;
    }
    if came.course.as_slice() != wanted.as_bytes() {
        let came = String::from_utf8_lossy(alloc, came.course.as_slice())?;
        return Ok(format!(in alloc; "{line}: {came:?}")?);
    }
    Ok(String::new(alloc))
}

const SERVES: &str = "waits\nticks\nwaits\nticks\nwaits\nstops\n";

const USAGE: &str = "prints usage: polipo [-c FILE] [-g SEED] [name=value ...]\n\n";

#[test]
fn words_and_file_say_where_it_listens(rt: HostRuntime) -> Result<(), Fail> {
    let cases: [(&str, &str, &str); 8] = [
        (
            "",
            "nonsense",
            "uses polipo-cache\nlists it\nlistens on 8123\n",
        ),
        (
            "proxyPort=1",
            "",
            "uses polipo-cache\nlists it\nlistens on 1\n",
        ),
        (
            "-c f",
            "",
            "reads f\nuses polipo-cache\nlists it\nlistens on 8123\n",
        ),
        (
            "-c f",
            "proxyPort = 65535",
            "reads f\nuses polipo-cache\nlists it\nlistens on 65535\n",
        ),
        (
            "-c /e/g",
            "proxyPort=7\nproxyPort=9\n",
            "reads /e/g\nuses polipo-cache\nlists it\nlistens on 9\n",
        ),
        (
            "proxyPort=11 -c f proxyPort=10",
            "proxyPort=9",
            "reads f\nuses polipo-cache\nlists it\nlistens on 10\n",
        ),
        (
            "proxyPort=10 maxTurns=3",
            "",
            "uses polipo-cache\nlists it\nlistens on 10\n",
        ),
        (
            "-c f",
            "maxTurns=4\nproxyName=p",
            "reads f\nuses polipo-cache\nlists it\nlistens on 8123\n",
        ),
    ];
    for (line, text, wanted) in cases {
        let opening = Opening {
            line,
            text: text.as_bytes(),
            failing: None,
        };
        says_nothing(&rt, unlike(rt.alloc(), opening, SERVED, &[wanted, SERVES]))?;
    }
    Ok(())
}

#[test]
fn no_more_turns_are_made_than_the_most(rt: HostRuntime) -> Result<(), Fail> {
    let cases: [(&str, &str); 2] = [
        (
            "maxTurns=1",
            "uses polipo-cache\nlists it\nlistens on 8123\nwaits\nticks\n",
        ),
        (
            "maxTurns=2",
            "uses polipo-cache\nlists it\nlistens on 8123\nwaits\nticks\nwaits\nticks\n",
        ),
    ];
    for (line, wanted) in cases {
        let opening = Opening {
            line,
            text: b"",
            failing: None,
        };
        says_nothing(&rt, unlike(rt.alloc(), opening, SERVED, &[wanted]))?;
    }
    Ok(())
}

#[test]
fn words_without_a_reading_are_refused_before_anything_is_read(
    rt: HostRuntime,
) -> Result<(), Fail> {
    let lines = [
        "nonsense",
        "proxyport=1",
        " ",
        "-c",
        "-c f -c g",
        "-c f nonsense",
        "-g",
        "-g x",
        "-g 18446744073709551616",
        "-g 7 -c f",
        "-g 7 proxyPort=1",
        "--help",
        "--version",
        "-h",
    ];
    for line in lines {
        let opening = Opening {
            line,
            text: b"proxyPort=9",
            failing: None,
        };
        says_nothing(&rt, unlike(rt.alloc(), opening, USED_WRONGLY, &[USAGE]))?;
    }
    Ok(())
}

/// Words, a text, which call fails, and the course.
const NO_CONFIGS: [(&str, &str, Option<u64>, &str); 10] = [
    (
        "-c f",
        "",
        Some(1),
        "cannot read f\nprints polipo: cannot read the configuration\n\n",
    ),
    (
        "-c f proxyPort=0",
        "x",
        Some(1),
        "cannot read f\nprints polipo: cannot read the configuration\n\n",
    ),
    (
        "proxyPort=0",
        "",
        None,
        "prints polipo: bad value for proxyPort\n\n",
    ),
    (
        "chunkHighMark=3000 chunkLowMark=3001",
        "",
        None,
        "prints polipo: bad value for chunkHighMark\n\n",
    ),
    (
        "chunkCriticalMark=65537",
        "",
        None,
        "prints polipo: bad value for chunkCriticalMark\n\n",
    ),
    (
        "-c f",
        "# x\nproxyPort 9\n",
        None,
        "reads f\nprints polipo: configuration line 2 is not understood\n\n",
    ),
    (
        "-c f diskRun=65",
        "maxTurns=0\n",
        None,
        "reads f\nprints polipo: bad value for maxTurns\n\n",
    ),
    (
        "-c f diskRun=65",
        "maxTurns=1\n",
        None,
        "reads f\nprints polipo: bad value for diskRun\n\n",
    ),
    (
        "-c f",
        "shareFetches=2\nx\n",
        None,
        "reads f\nprints polipo: configuration line 2 is not understood\n\n",
    ),
    (
        "-c f",
        "diskCacheRoot=\n",
        None,
        "reads f\nprints polipo: bad value for diskCacheRoot\n\n",
    ),
];

#[test]
fn a_configuration_that_says_nothing_ends_it_with_its_line(rt: HostRuntime) -> Result<(), Fail> {
    for (line, text, failing, wanted) in NO_CONFIGS {
        let opening = Opening {
            line,
            text: text.as_bytes(),
            failing,
        };
        says_nothing(&rt, unlike(rt.alloc(), opening, WITHOUT_CONFIG, &[wanted]))?;
    }
    Ok(())
}

#[test]
fn a_text_above_65536_bytes_is_too_long(rt: HostRuntime) -> Result<(), Fail> {
    let alloc = rt.alloc();
    let letters = vec![in alloc; b'#'; 65_537]?;
    let longest = Opening {
        line: "-c f",
        text: &letters[1..],
        failing: None,
    };
    let listens = "reads f\nuses polipo-cache\nlists it\nlistens on 8123\n";
    says_nothing(&rt, unlike(alloc, longest, SERVED, &[listens, SERVES]))?;
    let longer = Opening {
        line: "-c f",
        text: letters.as_slice(),
        failing: None,
    };
    let prints = "reads f\nprints polipo: the configuration is too long\n\n";
    says_nothing(&rt, unlike(alloc, longer, WITHOUT_CONFIG, &[prints]))
}

#[test]
fn without_its_folder_it_ends(rt: HostRuntime) -> Result<(), Fail> {
    let cases: [(&str, u64, &str); 2] = [
        (
            "",
            1,
            "uses polipo-cache\ncannot list it\nprints polipo: cannot list the cache folder\n\n",
        ),
        (
            "-c f diskCacheRoot=d",
            2,
            "reads f\nuses d\ncannot list it\nprints polipo: cannot list the cache folder\n\n",
        ),
    ];
    for (line, failing, wanted) in cases {
        let opening = Opening {
            line,
            text: b"proxyPort=7",
            failing: Some(failing),
        };
        says_nothing(&rt, unlike(rt.alloc(), opening, WITHOUT_DISK, &[wanted]))?;
    }
    Ok(())
}

#[test]
fn without_its_port_it_ends(rt: HostRuntime) -> Result<(), Fail> {
    let cases: [(&str, u64, &str); 3] = [
        (
            "",
            2,
            "uses polipo-cache\nlists it\nmay not listen on 8123\nprints polipo: cannot listen on port 8123\n\n",
        ),
        (
            "proxyPort=65535",
            2,
            "uses polipo-cache\nlists it\nmay not listen on 65535\nprints polipo: cannot listen on port 65535\n\n",
        ),
        (
            "-c f",
            3,
            "reads f\nuses polipo-cache\nlists it\nmay not listen on 7\nprints polipo: cannot listen on port 7\n\n",
        ),
    ];
    for (line, failing, wanted) in cases {
        let opening = Opening {
            line,
            text: b"proxyPort=7",
            failing: Some(failing),
        };
        says_nothing(
            &rt,
            unlike(rt.alloc(), opening, WITHOUT_LISTENER, &[wanted]),
        )?;
    }
    Ok(())
}
