//! Tests that show that what is done in one step takes the visits that its table says.

use crate::searches::faults;
use std::test::Fail;

// What is done in one step, each with the visits that it takes and with one fewer, counted from the definition:
// repeats of a single character (their bounds, nested ones, giving back under groups, lookaround and atomic groups),
// and repeats, lookahead and alternatives that miss by their first character.
const RUNS: &str = "\
    a*ab¦aab¦0¦10¦A-¦0-3¶\
    a*ab¦aab¦0¦9¦A-¦spent¶\
    x{2,5}y¦xxxxxxy¦0¦15¦A-¦miss¶\
    x{2,5}y¦xxxxxxy¦0¦14¦A-¦spent¶\
    x{2,5}y¦xxxy¦0¦10¦A-¦0-4¶\
    x{2,5}y¦xxxy¦0¦9¦A-¦spent¶\
    x{2,5}¦x¦0¦4¦A-¦miss¶\
    x{2,5}¦x¦0¦3¦A-¦spent¶\
    x{2,5}¦xx¦0¦7¦A-¦0-2¶\
    x{2,5}¦xx¦0¦6¦A-¦spent¶\
    x{2,5}¦xxxxxx¦0¦12¦A-¦0-5¶\
    x{2,5}¦xxxxxx¦0¦11¦A-¦spent¶\
    x{3}¦xxxx¦0¦8¦A-¦0-3¶\
    x{3}¦xxxx¦0¦7¦A-¦spent¶\
    x{,2}x¦xx¦0¦8¦A-¦0-2¶\
    x{,2}x¦xx¦0¦7¦A-¦spent¶\
    x+xx¦xxx¦0¦14¦A-¦0-3¶\
    x+xx¦xxx¦0¦13¦A-¦spent¶\
    x+¦y¦0¦2¦A-¦miss¶\
    x+¦y¦0¦1¦A-¦spent¶\
    (?:a*b)*c¦aababc¦0¦20¦A-¦0-6¶\
    (?:a*b)*c¦aababc¦0¦19¦A-¦spent¶\
    (?:a+b?)*c¦aabac¦0¦22¦A-¦0-5¶\
    (?:a+b?)*c¦aabac¦0¦21¦A-¦spent¶\
    (?:a*a)*b¦aaac¦0¦61¦A-¦miss¶\
    (?:a*a)*b¦aaac¦0¦60¦A-¦spent¶\
    (a*)(a)b¦aaab¦0¦18¦A-¦0-4 0-2 2-3¶\
    (a*)(a)b¦aaab¦0¦17¦A-¦spent¶\
    (?:(a*)b|a*)c¦aac¦0¦22¦A-¦0-3 .¶\
    (?:(a*)b|a*)c¦aac¦0¦21¦A-¦spent¶\
    (?=(a*)b)a*a¦aab¦0¦20¦A-¦0-2 0-2¶\
    (?=(a*)b)a*a¦aab¦0¦19¦A-¦spent¶\
    (?!a*c)a*b¦aab¦0¦18¦A-¦0-3¶\
    (?!a*c)a*b¦aab¦0¦17¦A-¦spent¶\
    (?=a*ab)a¦aab¦0¦13¦A-¦0-1¶\
    (?=a*ab)a¦aab¦0¦12¦A-¦spent¶\
    (?>a*)ab¦aab¦0¦9¦A-¦miss¶\
    (?>a*)ab¦aab¦0¦8¦A-¦spent¶\
    (?>a*a)b¦aab¦0¦12¦A-¦0-3¶\
    (?>a*a)b¦aab¦0¦11¦A-¦spent¶\
    (?>a*b)*c¦abbc¦0¦21¦A-¦0-4¶\
    (?>a*b)*c¦abbc¦0¦20¦A-¦spent¶\
    .*b.*¦abac¦0¦21¦A-¦0-4¶\
    .*b.*¦abac¦0¦20¦A-¦spent¶\
    \\w+\\d¦ab1c¦0¦14¦A-¦0-3¶\
    \\w+\\d¦ab1c¦0¦13¦A-¦spent¶\
    (\\w*)-\\1¦ab-a¦0¦14¦A-¦miss¶\
    (\\w*)-\\1¦ab-a¦0¦13¦A-¦spent¶\
    (?:,a)*b¦,ab¦0¦7¦A-¦0-3¶\
    (?:,a)*b¦,ab¦0¦6¦A-¦spent¶\
    (?:,a)*b¦b¦0¦4¦A-¦0-1¶\
    (?:,a)*b¦b¦0¦3¦A-¦spent¶\
    (?:,a)*b¦,¦0¦4¦A-¦miss¶\
    (?:,a)*b¦,¦0¦3¦A-¦spent¶\
    (?:(a)b)?c¦c¦0¦5¦A-¦0-1 .¶\
    (?:(a)b)?c¦c¦0¦4¦A-¦spent¶\
    (?:(a)b)?c¦abc¦0¦8¦A-¦0-3 0-1¶\
    (?:(a)b)?c¦abc¦0¦7¦A-¦spent¶\
    (?:ab){1,2}c¦abc¦0¦7¦A-¦0-3¶\
    (?:ab){1,2}c¦abc¦0¦6¦A-¦spent¶\
    (?:ab){1,2}c¦ababc¦0¦9¦A-¦0-5¶\
    (?:ab){1,2}c¦ababc¦0¦8¦A-¦spent¶\
    (?:ab){1,2}c¦c¦0¦2¦A-¦miss¶\
    (?:ab){1,2}c¦c¦0¦1¦A-¦spent¶\
    (?:ab)*?c¦abc¦0¦7¦A-¦0-3¶\
    (?:ab)*?c¦abc¦0¦6¦A-¦spent¶\
    (?!ab)c¦c¦0¦4¦A-¦0-1¶\
    (?!ab)c¦c¦0¦3¦A-¦spent¶\
    (?=ab)c¦c¦0¦2¦A-¦miss¶\
    (?=ab)c¦c¦0¦1¦A-¦spent¶\
    (?!(a)b)c¦c¦0¦5¦A-¦0-1 .¶\
    (?!(a)b)c¦c¦0¦4¦A-¦spent¶\
    (?:ab|(b)a|c)d¦cd¦0¦7¦A-¦0-2 .¶\
    (?:ab|(b)a|c)d¦cd¦0¦6¦A-¦spent¶\
    (?:ab|(b)a|c)d¦bad¦0¦8¦A-¦0-3 0-1¶\
    (?:ab|(b)a|c)d¦bad¦0¦7¦A-¦spent¶\
    (?:ab|(b)a|c)d¦d¦0¦5¦A-¦miss¶\
    (?:ab|(b)a|c)d¦d¦0¦4¦A-¦spent¶\
    (?:a|b|c)+d¦cbad¦0¦19¦A-¦0-4¶\
    (?:a|b|c)+d¦cbad¦0¦18¦A-¦spent¶\
    (?:ab|ac|b)(?:x|d)¦acd¦0¦9¦A-¦0-3¶\
    (?:ab|ac|b)(?:x|d)¦acd¦0¦8¦A-¦spent¶\
    (?>(a)|b)c¦bc¦0¦8¦A-¦0-2 .¶\
    (?>(a)|b)c¦bc¦0¦7¦A-¦spent¶\
";

#[test]
fn what_is_done_in_one_step_takes_the_visits_that_its_table_says(
    rt: HostRuntime,
) -> Result<(), Fail> {
    assert_eq!(rt; faults(rt.alloc(), RUNS, 84)?.as_str(), "");
    Ok(())
}
