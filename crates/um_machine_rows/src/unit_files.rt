//! Unit files in full: specifiers, words, links, drop-ins and warnings, as replies show them.
use crate::script::{Script, play_script};
use crate::texts::{ACTIONS, DONE, NO_A, RELOAD, SHOW_A, SHOW_B, START_A, START_B};

// The requests in turn, and their replies.

const SPECIFIERS_TELL_THE_NAME_OF_AN_INSTANCE: Script = Script {
    shows: "specifiers tell the name of an instance",
    steps: &[
        (
            r#"{"verb":"put-file","path":"lib/app@.service","text":"[Unit]\nDescription=%p %i %I %j %%\n[Service]\nExecStart=/bin/true\n"}"#,
            DONE,
        ),
        (RELOAD, DONE),
        (
            r#"{"verb":"show","unit":"app@x-y.service"}"#,
            r#"{"ok":true,"value":{"ActiveState":"inactive","Description":"app x-y x/y app %","Id":"app@x-y.service","LoadState":"loaded","MainNumber":0,"Result":"success","SubState":"dead","Warnings":[]}}"#,
        ),
    ],
};

const WORDS_AND_VARIABLES_OF_A_COMMAND: Script = Script {
    shows: "words and variables of a command",
    steps: &[
        (
            r#"{"verb":"put-file","path":"lib/a.service","text":"[Service]\nEnvironment=\"X=p  q\"\nExecStart=/bin/echo \"a b\" $X ${X}c $$ \\x41\n"}"#,
            DONE,
        ),
        (
            r#"{"verb":"put-file","path":"lib/b.service","text":"[Service]\nEnvironment=\"Y='two two' too\"\nExecStart=/bin/echo $Y\n"}"#,
            DONE,
        ),
        (RELOAD, DONE),
        (START_A, DONE),
        (START_B, DONE),
        (
            ACTIONS,
            r#"{"ok":true,"value":[["spawn",1,["/bin/echo","a b","p","q","p  qc","$","A"]],["spawn",2,["/bin/echo","two two","too"]]]}"#,
        ),
    ],
};

const EACH_KIND_OF_WARNING_BY_ITS_LINE: Script = Script {
    shows: "each kind of warning by its line",
    steps: &[
        (
            r#"{"verb":"put-file","path":"lib/w.target","text":"Description=x\n[Unit]\nfoo\nFrob=1\nDefaultDependencies=maybe\nDescription=%z\n[Zed]\na=b\n"}"#,
            DONE,
        ),
        (
            r#"{"verb":"put-file","path":"lib/r.service","text":"[Service]\nExecStart=/bin/true\nRestartSec=1.5s\n"}"#,
            DONE,
        ),
        (RELOAD, DONE),
        (
            r#"{"verb":"show","unit":"w.target"}"#,
            r#"{"ok":true,"value":{"ActiveState":"inactive","Description":"","Id":"w.target","LoadState":"loaded","MainNumber":0,"Result":"success","SubState":"dead","Warnings":[[1,"lib/w.target",1],[2,"lib/w.target",3],[4,"lib/w.target",4],[5,"lib/w.target",5],[6,"lib/w.target",6],[3,"lib/w.target",7]]}}"#,
        ),
        (
            r#"{"verb":"show","unit":"r"}"#,
            r#"{"ok":true,"value":{"ActiveState":"inactive","Description":"","Id":"r.service","LoadState":"loaded","MainNumber":0,"Result":"success","SubState":"dead","Warnings":[[5,"lib/r.service",3]]}}"#,
        ),
    ],
};

const EIGHT_LINKS_LEAD_TO_A_UNIT_AND_NINE_LEAD_NOWHERE: Script = Script {
    shows: "eight links lead to a unit and nine lead nowhere",
    steps: &[
        (
            r#"{"verb":"put-link","path":"etc/b.service","target":"a0.service"}"#,
            DONE,
        ),
        (
            r#"{"verb":"put-link","path":"etc/a0.service","target":"a1.service"}"#,
            DONE,
        ),
        (
            r#"{"verb":"put-link","path":"etc/a1.service","target":"a2.service"}"#,
            DONE,
        ),
        (
            r#"{"verb":"put-link","path":"etc/a2.service","target":"a3.service"}"#,
            DONE,
        ),
        (
            r#"{"verb":"put-link","path":"etc/a3.service","target":"a4.service"}"#,
            DONE,
        ),
        (
            r#"{"verb":"put-link","path":"etc/a4.service","target":"a5.service"}"#,
            DONE,
        ),
        (
            r#"{"verb":"put-link","path":"etc/a5.service","target":"a6.service"}"#,
            DONE,
        ),
        (
            r#"{"verb":"put-link","path":"etc/a6.service","target":"a7.service"}"#,
            DONE,
        ),
        (
            r#"{"verb":"put-link","path":"etc/a7.service","target":"a8.service"}"#,
            DONE,
        ),
        (
            r#"{"verb":"put-file","path":"lib/a8.service","text":"[Service]\nExecStart=/bin/true\n"}"#,
            DONE,
        ),
        (RELOAD, DONE),
        (
            r#"{"verb":"show","unit":"a0"}"#,
            r#"{"ok":true,"value":{"ActiveState":"inactive","Description":"","Id":"a8.service","LoadState":"loaded","MainNumber":0,"Result":"success","SubState":"dead","Warnings":[]}}"#,
        ),
        (
            SHOW_B,
            r#"{"ok":true,"value":{"ActiveState":"inactive","Description":"","Id":"b.service","LoadState":"not-found","MainNumber":0,"Result":"success","SubState":"dead","Warnings":[]}}"#,
        ),
    ],
};

const FILES_AND_LINKS_STAND_IN_EACH_OTHERS_WAY: Script = Script {
    shows: "files and links stand in each others way",
    steps: &[
        (
            r#"{"verb":"put-link","path":"etc/a.service","target":"b.service"}"#,
            DONE,
        ),
        (
            r#"{"verb":"put-link","path":"etc/b.service","target":"a.service"}"#,
            DONE,
        ),
        (
            r#"{"verb":"put-file","path":"etc/a.service","text":"[Service]\n"}"#,
            r#"{"detail":["etc/a.service"],"error":11,"ok":false}"#,
        ),
        (
            r#"{"verb":"remove","path":"lib/a.service"}"#,
            r#"{"detail":["lib/a.service"],"error":12,"ok":false}"#,
        ),
        (RELOAD, DONE),
        (SHOW_A, NO_A),
        (r#"{"verb":"remove","path":"etc/a.service"}"#, DONE),
        (
            r#"{"verb":"cat","unit":"a"}"#,
            r#"{"detail":["a.service"],"error":4,"ok":false}"#,
        ),
    ],
};

const DROP_INS_ARE_TOLD_BY_THE_NAMES_OF_THEIR_FILES: Script = Script {
    shows: "drop ins are told by the names of their files",
    steps: &[
        (
            r#"{"verb":"put-file","path":"lib/a@.service","text":"t"}"#,
            DONE,
        ),
        (
            r#"{"verb":"put-file","path":"etc/a@.service.d/20.conf","text":"template"}"#,
            DONE,
        ),
        (
            r#"{"verb":"put-file","path":"lib/a@1.service.d/20.conf","text":"own"}"#,
            DONE,
        ),
        (
            r#"{"verb":"put-file","path":"lib/a@1.service.d/10.conf","text":"lib"}"#,
            DONE,
        ),
        (
            r#"{"verb":"put-file","path":"run/a@1.service.d/10.conf","text":"run"}"#,
            DONE,
        ),
        (
            r#"{"verb":"put-link","path":"etc/m@.service","target":"/dev/null"}"#,
            DONE,
        ),
        (
            r#"{"verb":"cat","unit":"a@1"}"#,
            r#"{"ok":true,"value":[["lib/a@.service","t"],["run/a@1.service.d/10.conf","run"],["lib/a@1.service.d/20.conf","own"]]}"#,
        ),
        (
            r#"{"verb":"cat","unit":"m@1"}"#,
            r#"{"detail":["m@1.service"],"error":5,"ok":false}"#,
        ),
    ],
};

#[test]
fn scripts_have_their_replies(rt: HostRuntime) {
    play_script(&rt, &SPECIFIERS_TELL_THE_NAME_OF_AN_INSTANCE);
    play_script(&rt, &WORDS_AND_VARIABLES_OF_A_COMMAND);
    play_script(&rt, &EACH_KIND_OF_WARNING_BY_ITS_LINE);
    play_script(&rt, &EIGHT_LINKS_LEAD_TO_A_UNIT_AND_NINE_LEAD_NOWHERE);
    play_script(&rt, &FILES_AND_LINKS_STAND_IN_EACH_OTHERS_WAY);
    play_script(&rt, &DROP_INS_ARE_TOLD_BY_THE_NAMES_OF_THEIR_FILES);
}
