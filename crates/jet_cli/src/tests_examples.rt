// The example jobs and their plans, as they stand in the folder `examples`.

pub(crate) const BASE_JOB: &str = r#"{
  "vertices": [
    {"name": "s", "kind": "source", "files": ["examples/first/t.csv"], "lag": 3},
    {"name": "a", "kind": "accumulate", "size": 10, "slide": 5},
    {"name": "w", "kind": "combine"},
    {"name": "z", "kind": "sink"}
  ],
  "edges": [
    {"from": "s", "to": "a", "route": "unicast"},
    {"from": "a", "to": "w", "route": "partitioned", "distributed": true},
    {"from": "w", "to": "z", "route": "unicast", "distributed": true}
  ]
}
"#;

pub(crate) const BASE_PLAN: &str = r#"vertex,0,s,source,1
vertex,1,a,accumulate,1
vertex,2,w,combine,1
vertex,3,z,sink,1
edge,0,s,a,unicast,1,0
edge,1,a,w,partitioned,1,0
edge,2,w,z,unicast,1,0
total,3,4,4096,0
"#;

pub(crate) const SENSORS_JOB: &str = r#"{
  "vertices": [
    {"name": "readings", "kind": "source", "files": ["examples/sensors/readings.csv"], "lag": 5000},
    {"name": "rooms", "kind": "side", "file": "examples/sensors/rooms.csv"},
    {"name": "placed", "kind": "join", "parallelism": 2, "mode": "inner", "rekey": true, "fields": ["v0", "s0", "v2", "v3"]},
    {"name": "hot", "kind": "filter", "test": "v0 > v1"},
    {"name": "room_frames", "kind": "accumulate", "parallelism": 2, "size": 60000, "slide": 10000},
    {"name": "room", "kind": "combine", "parallelism": 2},
    {"name": "alarm_frames", "kind": "accumulate", "size": 60000, "slide": 60000},
    {"name": "alarm", "kind": "combine"},
    {"name": "rows", "kind": "sink"}
  ],
  "edges": [
    {"from": "readings", "to": "placed", "route": "unicast"},
    {"from": "rooms", "to": "placed", "route": "broadcast", "distributed": true, "build": true},
    {"from": "placed", "to": "room_frames", "route": "unicast"},
    {"from": "room_frames", "to": "room", "route": "partitioned", "distributed": true},
    {"from": "room", "to": "rows", "route": "unicast", "distributed": true},
    {"from": "placed", "to": "hot", "route": "unicast"},
    {"from": "hot", "to": "alarm_frames", "route": "unicast"},
    {"from": "alarm_frames", "to": "alarm", "route": "partitioned", "distributed": true},
    {"from": "alarm", "to": "rows", "route": "unicast", "distributed": true}
  ],
  "settings": {"workers": 2, "members": 2}
}
"#;

pub(crate) const SENSORS_PLAN: &str = r#"vertex,0,readings,source,2
vertex,1,rooms,side,1
vertex,2,placed,join,4
vertex,3,hot,filter,2
vertex,4,room_frames,accumulate,4
vertex,5,room,combine,4
vertex,6,alarm_frames,accumulate,2
vertex,7,alarm,combine,2
vertex,8,rows,sink,1
edge,0,readings,placed,unicast,4,0
edge,1,rooms,placed,broadcast,5,1
edge,2,placed,room_frames,unicast,8,0
edge,3,room_frames,room,partitioned,16,2
edge,4,room,rows,unicast,5,1
edge,5,placed,hot,unicast,4,0
edge,6,hot,alarm_frames,unicast,2,0
edge,7,alarm_frames,alarm,partitioned,6,2
edge,8,alarm,rows,unicast,3,1
total,35,55,56320,7
"#;
