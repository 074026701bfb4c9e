// Clients that poll without a stream.
use crate::script::play;
use std::test::Fail;
use xds_core::Core;

// rule: not-modified
#[test]
fn all_is_told_unless_the_version_is_the_present_one(rt: HostRuntime) -> Result<(), Fail> {
    play::<Core, HostRuntime>(
        &rt,
        r#"rest cluster - - => {"typeUrl":"CDS","versionInfo":"1.0"}
rest cluster 1.0 - => unchanged
put {"@type":"CDS","name":"b"} => 1-1
rest cluster - - => {"resources":[{"@type":"CDS","name":"b"}],"typeUrl":"CDS","versionInfo":"1.1"}
rest cluster 1.0 - => {"resources":[{"@type":"CDS","name":"b"}],"typeUrl":"CDS","versionInfo":"1.1"}
rest cluster 1.1 - => unchanged
rest cluster 1.1 - * => unchanged
rest cluster 1.1 - * b => unchanged
rest cluster 1.1 - b => {"resources":[{"@type":"CDS","name":"b"}],"typeUrl":"CDS",
    "versionInfo":"1.1.named"}
rest cluster 1.1.named - b => {"resources":[{"@type":"CDS","name":"b"}],"typeUrl":"CDS",
    "versionInfo":"1.1.named"}
rest cluster 1.1.named - a => {"typeUrl":"CDS","versionInfo":"1.1.named"}
putin g {"@type":"CDS","name":"a"} => 2-1
rest cluster - - => {"resources":[{"@type":"CDS","name":"b"}],"typeUrl":"CDS","versionInfo":"1.2"}
rest cluster - g => {"resources":[{"@type":"CDS","name":"a"},{"@type":"CDS","name":"b"}],
    "typeUrl":"CDS","versionInfo":"1.2@g"}
rest cluster 1.2@g g => unchanged
rest cluster 1.2 g => {"resources":[{"@type":"CDS","name":"a"},{"@type":"CDS","name":"b"}],
    "typeUrl":"CDS","versionInfo":"1.2@g"}
rest cluster 1.2@g - => {"resources":[{"@type":"CDS","name":"b"}],"typeUrl":"CDS",
    "versionInfo":"1.2"}
rest cluster - - a => {"resources":[{"@type":"CDS","name":"a"}],"typeUrl":"CDS",
    "versionInfo":"1.2.named"}
rest cluster - g b a b => {"resources":[{"@type":"CDS","name":"a"},{"@type":"CDS","name":"b"}],
    "typeUrl":"CDS","versionInfo":"1.2.named"}
delete cluster b => 3-1
rest cluster 1.2 - => {"typeUrl":"CDS","versionInfo":"1.3"}
put {"@type":"EDS","clusterName":"e"} => 1-1
put {"@type":"EDS","clusterName":"f"} => 2-1
rest endpoint - - => {"typeUrl":"EDS","versionInfo":"1.2.named"}
rest endpoint 1.2.named - f e => {"resources":[{"@type":"EDS","clusterName":"e"},
    {"@type":"EDS","clusterName":"f"}],"typeUrl":"EDS","versionInfo":"1.2.named"}
rest endpoint 1.2 - e => {"resources":[{"@type":"EDS","clusterName":"e"}],"typeUrl":"EDS",
    "versionInfo":"1.2.named"}
rest endpoint - - * => {"typeUrl":"EDS","versionInfo":"1.2.named"}
put {"@type":"LDS","name":"l"} => 1-1
rest listener - - => {"resources":[{"@type":"LDS","name":"l"}],"typeUrl":"LDS","versionInfo":"1.1"}
put {"@type":"RDS","name":"r"} => 1-1
rest route - - r => {"resources":[{"@type":"RDS","name":"r"}],"typeUrl":"RDS",
    "versionInfo":"1.1.named"}
put {"@type":"SDS","name":"s"} => 1-1
rest secret - - s => {"resources":[{"@type":"SDS","name":"s"}],"typeUrl":"SDS",
    "versionInfo":"1.1.named"}
marks => 3 2 1 1 1"#,
    )
}
