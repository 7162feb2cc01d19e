//! What is constant in a page: its head, how its parts look, and the script that shows one moment.

ghost use Rattle.std.specs.Prelude.{◌≡◌};
ghost use Rattle.rp_history.specs.Frame.{before_drawing, after_drawing, after_switch, after_sections, switch_text};

use crate::page::Form;

/// What is before the drawing.
const BEFORE_DRAWING: &str = "\
    <!DOCTYPE html>\n\
    <html lang='en'><head><meta charset='utf-8'><title>A run, moment by moment</title>\n\
    <meta name='viewport' content='width=device-width,initial-scale=1'>\n\
    <style>:root{color-scheme:light dark;--ink:#222;--paper:#fff;--line:#ccc;--here:#fc0;--new:#ffec99}\n\
    @media(prefers-color-scheme:dark){\n\
    :root{--ink:#e6e6e6;--paper:#16181c;--line:#555;--here:#c90;--new:#5c4a00}}\n\
    body{margin:0;font-family:sans-serif;color:var(--ink);background:var(--paper)}\n\
    h2,pre,#tip{font-family:monospace}h2{font-size:15px;margin:8px 0}p{margin:4px 0}\n\
    pre{font-size:13px;margin:8px 0;white-space:pre-wrap;overflow-wrap:anywhere}\n\
    section{padding:4px 12px;border-top:1px solid var(--line)}\n\
    nav{padding:8px 12px}nav input[type=range]{width:100%}\n\
    #drawing{position:relative}\n\
    #here{position:absolute;left:0;height:18px;background:var(--here);opacity:.3;pointer-events:none}\n\
    #tip{position:fixed;max-width:90vw;padding:4px 8px;font-size:13px;white-space:pre-wrap}\n\
    #tip{color:var(--ink);background:var(--new);border:1px solid var(--ink);pointer-events:none}\n\
    .hit{stroke:transparent;stroke-width:9;pointer-events:stroke}.over{stroke-width:3}\n\
    .steps{display:flex;height:100vh}.steps #drawing{overflow:auto;flex:0 1 auto;cursor:pointer}\n\
    .steps #drawing svg{display:block}.later,#done,#state,#calls{padding:0 12px}\n\
    .steps #states{overflow:auto;flex:1 0 340px}.steps section{display:none}\n\
    .steps section.now{display:block}.alone #drawing svg,.alone #here{display:none}\n\
    #state{overflow-x:auto}#done{content-visibility:auto}\n\
    mark{color:inherit;background:var(--new)}table{border-collapse:collapse;font-size:12px;margin:8px 0}\n\
    caption{text-align:left;padding:2px 0;white-space:nowrap}tr.now{background:var(--new)}\n\
    th,td{border:1px solid var(--line);padding:2px 6px;text-align:left;font-weight:normal}\n\
    td.applied{background:var(--line)}td.applied mark{outline:1px solid}\n\
    .b1{color:#0072b2}.b2{color:#a85400}.b3{color:#00804f}.b4{color:#8e44ad}\n\
    .b5{color:#8a5a00}.b6{color:#b83a80}.b7{color:#5c6b00}\n\
    @media(prefers-color-scheme:dark){\n\
    .b1{color:#5ab4ec}.b2{color:#f0a050}.b3{color:#45c792}.b4{color:#cb8fe6}\n\
    .b5{color:#d9a441}.b6{color:#ee8cc0}.b7{color:#b3c43a}}\n\
    @media(max-width:899px){.steps{flex-direction:column}\n\
    .steps #drawing{flex:0 1 45vh}.steps #states{flex:1 1 55vh}}\n\
    @media print{nav,#here,#tip,.later,#done,#state,#calls{display:none}\n\
    .steps{display:block;height:auto}.steps #drawing,.steps #states{overflow:visible}\n\
    .steps section{display:block}.alone #drawing svg{display:block}}\n\
    </style></head><body>\n\
    <div id='drawing'>\n";

/// What is between the drawing and the switch to calls and replies.
const AFTER_DRAWING: &str = "\
    <div id='here' hidden></div><div id='calls' hidden></div></div>\n\
    <div id='states' tabindex='0'><nav hidden>Moment <output id='count'></output>:\n\
    arrow keys, the slider or a click on the drawing choose one of\n\
    <select id='kept' aria-label='which moments'><option value=''>all moments</option></select>\n\
    <label><input type='checkbox' id='alone'";

/// What is after the switch to calls and replies.
const AFTER_SWITCH: &str = "\
    >calls and replies alone</label>\n\
    <input type='range' id='slider' min='1' value='1' aria-label='moment'></nav>\n\
    <div id='state'></div>\n";

/// What is after the last section. The script shows one section at a time, with names in place of
/// numbers and what changed in it marked, draws the state that its text tells, and says which packet
/// an arrow is: without it all sections are there, one after another.
const AFTER_SECTIONS: &str = "\
    <h2 class='later' hidden>done so far</h2><pre id='done'></pre></div>\n\
    <div id='tip' hidden></div>\n\
    <script>\n\
    (function(){\n\
    var sections=[].slice.call(document.querySelectorAll('section')),now=0;\n\
    var newline=String.fromCharCode(10);\n\
    function part(name){return document.getElementById(name)}\n\
    function plain(tag,text,look){\n\
    var it=document.createElement(tag);\n\
    it.textContent=text;\n\
    if(look)it.className=look;\n\
    return it;\n\
    }\n\
    function under(text,heading){\n\
    var lines=text.split(newline),at=lines.indexOf(heading),found=[];\n\
    if(at<0)return found;\n\
    for(at++;at<lines.length&&!/^(delivered|sent|nodes|tasks):$/.test(lines[at]);at++)\n\
    if(lines[at])found.push(lines[at]);\n\
    return found;\n\
    }\n\
    var moments=sections.map(function(it){\n\
    var said=it.querySelector('p').cloneNode(true),text=it.querySelector('pre').textContent;\n\
    var actor=said.removeChild(said.firstChild).textContent;\n\
    var title=it.querySelector('h2').textContent.replace(/^[0-9]+: /,'');\n\
    var kind=title.replace(/^m[0-9]+ [^ ]+ /,'').split(' ')[0];\n\
    return {y:+it.dataset.y,number:it.id.slice(7),title:title,kind:kind,\n\
    actor:actor,deed:said.textContent.trim(),said:text,text:text};\n\
    });\n\
    function before(n){while(n-->0)if(moments[n].said)return moments[n].said;return ''}\n\
    var names=new Map();\n\
    function note(words,name){if(!names.has(words))names.set(words,name)}\n\
    function noteCall(it){\n\
    var call=it.title.match(/^(call|arm|disarm) [^ ]+ [0-9]+ ([^ ]+)( -?[0-9]+)?$/);\n\
    var asked=(under(it.said,'sent:')[1]||'').match(/: ([a-z ]+[0-9]+ of object [0-9]+), argument /);\n\
    if(call&&asked)note(asked[1],call[1]=='call'?call[2]:call[1]+' '+call[2]);\n\
    }\n\
    function noteInterrupt(it,n){\n\
    var noted=it.title.match(/^irq [0-9]+ ([^ ]+) ([0-9]+)$/),old=under(before(n),'nodes:');\n\
    if(!noted)return;\n\
    under(it.said,'nodes:').forEach(function(line){\n\
    var item=line.match(/^  pending: (interrupt [0-9]+), occurrence ([0-9]+)$/);\n\
    if(item&&item[2]==noted[2]&&old.indexOf(line)<0)note(item[1],'interrupt '+noted[1]);\n\
    });\n\
    }\n\
    moments.forEach(function(it,n){\n\
    under(it.said,'tasks:').forEach(function(line,i){note('task '+(i+1),line.split(' ')[1])});\n\
    noteCall(it);\n\
    noteInterrupt(it,n);\n\
    });\n\
    function named(text){\n\
    var numbers=/[a-z]+( of timer)? [0-9]+ of object [0-9]+|(interrupt|task) [0-9]+/g;\n\
    return text.replace(numbers,function(it){return names.get(it)||it});\n\
    }\n\
    function rename(at,text){if(named(text)!=text)at.textContent=named(text)}\n\
    moments.forEach(function(it,n){\n\
    var deed=sections[n].querySelector('p').lastChild;\n\
    it.text=named(it.said);\n\
    it.deed=named(it.deed);\n\
    rename(sections[n].querySelector('pre'),it.said);\n\
    rename(deed,deed.textContent);\n\
    });\n\
    var learned=new Map();\n\
    moments.forEach(function(it,n){\n\
    var at=it.deed.match(/learned ([0-9]+)/),key=at&&it.actor+'/'+at[1];\n\
    if(at&&!learned.has(key))learned.set(key,n);\n\
    });\n\
    function done(n){\n\
    var lists=new Map(),i,it;\n\
    for(i=0;i<=n;i++){\n\
    it=moments[i];\n\
    if(it.actor&&it.deed){if(!lists.has(it.actor))lists.set(it.actor,[]);lists.get(it.actor).push(it.deed)}\n\
    }\n\
    part('done').textContent=Array.from(lists.keys()).sort().map(function(it){\n\
    return it+': '+lists.get(it).join('; ');\n\
    }).join(newline);\n\
    }\n\
    function owned(lines){\n\
    var owner='';\n\
    return lines.map(function(it){\n\
    if(/^(node|task) /.test(it))owner=it.split(' ').slice(0,2).join(' ')+'/';\n\
    return owner+it;\n\
    });\n\
    }\n\
    function marked(n){\n\
    var heading='nodes:'+newline,text=moments[n].text,at=text.indexOf(heading)+heading.length;\n\
    var old=new Set(owned(named(before(n)).split(newline))),pre=sections[n].querySelector('pre');\n\
    var lines=text.slice(at).split(newline);\n\
    if(!n||at<heading.length||pre.dataset.marked)return;\n\
    pre.dataset.marked=1;\n\
    pre.textContent=text.slice(0,at);\n\
    owned(lines).forEach(function(it,i){\n\
    pre.appendChild(it&&!old.has(it)?plain('mark',lines[i]):document.createTextNode(lines[i]));\n\
    if(i+1<lines.length)pre.appendChild(document.createTextNode(newline));\n\
    });\n\
    }\n\
    function drawn(title,rows,old){\n\
    var table=document.createElement('table'),was=new Map();\n\
    old.forEach(function(it){it.cells.forEach(function(cell){was.set(it.name+'/'+cell.at,cell.text)})});\n\
    table.appendChild(plain('caption',title));\n\
    rows.forEach(function(it){\n\
    var row=table.appendChild(document.createElement('tr'));\n\
    row.appendChild(plain('th',it.name,it.look));\n\
    it.cells.forEach(function(cell){\n\
    var is=!old.length||!cell.text||was.get(it.name+'/'+cell.at)==cell.text;\n\
    var at=row.appendChild(plain('td',is?cell.text:'',cell.look));\n\
    if(!is)at.appendChild(plain('mark',cell.text));\n\
    });\n\
    });\n\
    return table;\n\
    }\n\
    function nodes(said){\n\
    var found=[],it;\n\
    under(said,'nodes:').forEach(function(line){\n\
    var word=line.match(/^(node [0-9]+) (stopped|applied ([0-9]+))/);\n\
    var at=line.match(/^  position ([0-9]+): bound ([0-9]+)(?:, last vote in ballot ([0-9]+))?/);\n\
    if(word)found.push(it={name:word[1],applied:word[3]===undefined?-1:+word[3],at:{},most:0});\n\
    else if(at&&it){\n\
    it.at[at[1]]={bound:+at[2],vote:at[3]?+at[3]:0};\n\
    it.most=Math.max(it.most,+at[1]);\n\
    }\n\
    });\n\
    return found;\n\
    }\n\
    function place(it,i,n){\n\
    var at=it.at[i],key=it.name+'/'+i;\n\
    if(it.applied<0)return {text:'stopped'};\n\
    if(i<=it.applied)return {text:'applied',look:'applied'};\n\
    if(learned.has(key)&&learned.get(key)<=n)return {text:'learned',look:'applied'};\n\
    if(!at)return {text:''};\n\
    return {text:(at.vote?'voted '+at.vote+(at.bound>at.vote?', ':''):'')\n\
    +(at.bound>at.vote?'promised '+at.bound:''),look:'b'+at.bound%8};\n\
    }\n\
    function grid(said,n,first,last){\n\
    return nodes(said).map(function(it){\n\
    var cells=[],i,cell;\n\
    for(i=first;i<=last;i++){cell=place(it,i,n);cell.at=i;cells.push(cell)}\n\
    return {name:it.name,look:'b'+it.name.slice(5),cells:cells};\n\
    });\n\
    }\n\
    function longest(said){\n\
    var most=null,it=null;\n\
    under(said,'nodes:').forEach(function(line){\n\
    var node=line.match(/^node [0-9]+ applied ([0-9]+)/);\n\
    if(/^node /.test(line))it=node?{applied:+node[1],lines:[]}:null;\n\
    else if(it&&line.charAt(0)!=' ')it.lines.push(line);\n\
    if(it&&(!most||it.applied>most.applied))most=it;\n\
    });\n\
    return most||{applied:0,lines:[]};\n\
    }\n\
    function numbered(texts){return texts.map(function(it,i){return {at:i,text:it}})}\n\
    function queues(text){\n\
    var found=[],queue=/queue (?:([A-Za-z][A-Za-z0-9_]*) (?=none|task [0-9]+ call))?(none|(?:task [0-9]+ call [0-9]+ arg -?[0-9]+ ?)+)/g;\n\
    text.replace(queue,function(all,name,callers){\n\
    found.push(name?'queue of '+name:'queue');\n\
    callers.replace(/none|task ([0-9]+) call ([0-9]+) arg (-?[0-9]+)/g,function(all,task,call,arg){\n\
    found.push(task?named('task '+task)+' waits, call '+call+', argument '+arg:'nobody waits');\n\
    });\n\
    });\n\
    return found;\n\
    }\n\
    function objects(said){\n\
    return longest(said).lines.map(function(line){\n\
    var words=line.split(' ').filter(Boolean),kind=words.shift(),at=words.indexOf('queue');\n\
    var name=kind=='object'||kind=='timer'?words.shift():'';\n\
    if(kind!='object')return {name:name?kind+' '+name:kind,cells:numbered(kind=='timer'?[words.join(' ')]:words)};\n\
    at=words.indexOf('queue');\n\
    return {name:name,cells:numbered(at<0?words:words.slice(0,at).concat(queues(words.slice(at).join(' '))))};\n\
    });\n\
    }\n\
    function tasks(said){\n\
    return under(said,'tasks:').map(function(line){\n\
    var it=line.match(/^task ([^ ]+) replies ([0-9]+)(?:, the last to call [0-9]+: ([^,]+))?(?:, waits for call ([0-9]+): (.*))?$/);\n\
    if(!it)return {name:line,cells:[]};\n\
    return {name:it[1],cells:numbered([it[4]?'waits for call '+it[4]+': '+named(it[5]):'waits for nothing',\n\
    it[2]+(it[2]=='1'?' reply':' replies'),it[3]?'the last: '+it[3]:''])};\n\
    });\n\
    }\n\
    function draw(n){\n\
    var said=moments[n].said||before(n),old=n?before(n):'',state=part('state'),most=0,first;\n\
    if(!moments[n].said)old=said;\n\
    state.textContent='';\n\
    nodes(said).forEach(function(it){most=Math.max(most,it.applied,it.most)});\n\
    first=Math.max(1,most-7);\n\
    if(most)state.appendChild(drawn('positions '+first+' to '+most,grid(said,n,first,most),grid(old,n-1,first,most)));\n\
    state.appendChild(drawn('objects, where most is applied',objects(said),objects(old)));\n\
    state.appendChild(drawn('tasks',tasks(said),tasks(old)));\n\
    }\n\
    function changes(n){\n\
    var was=new Map();\n\
    objects(before(n)).forEach(function(it){it.cells.forEach(function(cell){was.set(it.name+'/'+cell.at,cell.text)})});\n\
    return objects(moments[n].said).map(function(it){\n\
    var cells=it.cells.filter(function(cell){return was.get(it.name+'/'+cell.at)!=cell.text});\n\
    return cells.length?it.name+' '+cells.map(function(cell){return cell.text}).join(', '):'';\n\
    }).filter(Boolean).join('; ')||'changes nothing';\n\
    }\n\
    var told=null;\n\
    function tell(){\n\
    var most=0,actions=new Map(),found=[];\n\
    moments.forEach(function(it,n){\n\
    var at=it.deed.match(/learned ([0-9]+)/),reply=it.deed.match(/^reply [0-9]+ (.*)$/);\n\
    var applied=it.said?longest(it.said).applied:most,fields=under(it.text,'delivered:')[1]||'';\n\
    var sent=(under(it.text,'sent:')[1]||'').match(/^  call ([0-9]+) of [^ ]+: (.*)$/);\n\
    if(at)actions.set(+at[1],fields.replace(/^  position [0-9]+, (ballot [0-9]+, )?/,''));\n\
    if(/^(call|arm|disarm|again) /.test(it.title)&&sent)\n\
    found.push({n:n,who:it.actor,what:it.kind+' '+sent[1]+': '+sent[2],did:''});\n\
    for(;most<applied;most++)\n\
    found.push({n:n,who:'position '+(most+1),what:actions.get(most+1)||'',did:most+1==applied?changes(n):''});\n\
    if(reply)found.push({n:n,who:it.actor,what:it.deed,did:''});\n\
    });\n\
    return found;\n\
    }\n\
    function alone(){\n\
    var table=document.createElement('table'),at=part('calls');\n\
    told=tell();\n\
    table.appendChild(plain('caption','Calls, the order of actions and what each did to its object, and replies'));\n\
    told.forEach(function(it){\n\
    var row=table.appendChild(document.createElement('tr'));\n\
    [moments[it.n].number,it.who,it.what,it.did].forEach(function(text){row.appendChild(plain('td',text))});\n\
    row.onclick=function(e){e.stopPropagation();show(it.n)};\n\
    it.row=row;\n\
    });\n\
    at.textContent='';\n\
    at.appendChild(table);\n\
    }\n\
    function isAlone(){return part('alone').checked}\n\
    function beside(n){\n\
    var last=null;\n\
    told.forEach(function(it){it.row.className='';if(it.n<=n)last=it});\n\
    if(last){last.row.className='now';last.row.scrollIntoView({block:'nearest'})}\n\
    }\n\
    function show(n){\n\
    var view=part('drawing'),height=view.clientHeight,y;\n\
    sections[now].className='';\n\
    now=Math.max(0,Math.min(sections.length-1,n));\n\
    y=moments[now].y-view.scrollTop;\n\
    if(!isAlone()&&(y<40||y>height-80))view.scrollTop=moments[now].y-height/2;\n\
    part('states').scrollTop=0;\n\
    sections[now].className='now';\n\
    part('slider').value=now+1;\n\
    part('count').textContent=moments[now].number+' of '+moments[moments.length-1].number;\n\
    marked(now);\n\
    draw(now);\n\
    done(now);\n\
    part('here').style.top=moments[now].y+'px';\n\
    if(isAlone())beside(now);\n\
    try{history.replaceState(null,'','#'+sections[now].id)}catch(it){}\n\
    }\n\
    function wanted(n){\n\
    var it=part('kept').value;\n\
    if(isAlone()&&!told.some(function(it){return it.n==n}))return false;\n\
    return !it||moments[n].actor==it||'kind '+moments[n].kind==it;\n\
    }\n\
    function step(by){\n\
    var to=by<0?-1:1,n=now,at=now;\n\
    for(by=Math.abs(by);by>0&&n+to>=0&&n+to<sections.length;){n+=to;if(wanted(n)){at=n;by--}}\n\
    show(at);\n\
    }\n\
    function choices(){\n\
    var seen=new Set();\n\
    moments.forEach(function(it){if(it.actor)seen.add(it.actor)});\n\
    moments.forEach(function(it){seen.add('kind '+it.kind)});\n\
    Array.from(seen).sort().forEach(function(it){\n\
    var choice=plain('option',it);\n\
    choice.value=it;\n\
    part('kept').appendChild(choice);\n\
    });\n\
    }\n\
    function parties(){\n\
    var found=new Map();\n\
    [].forEach.call(document.querySelectorAll('#drawing svg>text'),function(it){\n\
    if(+it.getAttribute('y')<moments[0].y)found.set(+it.getAttribute('x'),it.textContent.replace(/^node /,''));\n\
    });\n\
    return found;\n\
    }\n\
    function packet(way,at,lanes){\n\
    var from=moments[at.get(way[2]-15)],to=moments[at.get(way[4]-5)],lines,i;\n\
    if(to)lines=under(to.text,'delivered:');\n\
    if(lines&&lines.length)return lines.join(newline);\n\
    lines=from?under(from.text,'sent:'):[];\n\
    for(i=0;i<lines.length;i+=2)\n\
    if(to?lines[i]==to.title:lines[i].split(' ')[1].split('>')[1]==lanes.get(2*way[3]-way[1]))\n\
    return lines[i]+newline+lines[i+1];\n\
    return to?to.title:'';\n\
    }\n\
    function arrows(){\n\
    var at=new Map(),lanes=parties(),tip=part('tip');\n\
    moments.forEach(function(it,n){at.set(it.y,n)});\n\
    [].slice.call(document.querySelectorAll('#drawing svg>path')).forEach(function(it){\n\
    var way=it.getAttribute('d').match(/^M([0-9]+) ([0-9]+)Q[0-9]+ [0-9]+ ([0-9]+) ([0-9]+)$/);\n\
    var said=way&&packet(way,at,lanes),hit;\n\
    if(!said)return;\n\
    hit=it.parentNode.insertBefore(it.cloneNode(false),it.nextSibling);\n\
    hit.setAttribute('class','hit');\n\
    hit.onmouseover=function(e){\n\
    it.classList.add('over');\n\
    tip.textContent=said;\n\
    tip.hidden=false;\n\
    tip.style.left=Math.min(e.clientX+12,innerWidth-tip.offsetWidth-8)+'px';\n\
    tip.style.top=Math.min(e.clientY+12,innerHeight-tip.offsetHeight-8)+'px';\n\
    };\n\
    hit.onmouseout=function(){it.classList.remove('over');tip.hidden=true};\n\
    });\n\
    }\n\
    function linked(){sections.forEach(function(it,n){if('#'+it.id==location.hash)show(n)})}\n\
    if(!sections.length)return;\n\
    part('here').hidden=document.querySelector('nav').hidden=document.querySelector('.later').hidden=false;\n\
    part('here').style.width=document.querySelector('svg').getAttribute('width')+'px';\n\
    part('slider').max=sections.length;\n\
    part('slider').oninput=function(){show(this.value-1)};\n\
    function choose(){\n\
    if(isAlone())alone();\n\
    part('calls').hidden=!isAlone();\n\
    document.body.className=isAlone()?'steps alone':'steps';\n\
    show(now);\n\
    }\n\
    part('alone').onchange=choose;\n\
    part('drawing').onclick=function(e){\n\
    var y=e.clientY-document.querySelector('svg').getBoundingClientRect().top,n=0;\n\
    if(isAlone())return;\n\
    while(n+1<sections.length&&moments[n+1].y<=y)n++;\n\
    show(n);\n\
    };\n\
    document.onkeydown=function(e){\n\
    var keys={ArrowDown:1,ArrowRight:1,ArrowUp:-1,ArrowLeft:-1,PageDown:10,PageUp:-10,Home:-1/0,End:1/0};\n\
    var by=keys[e.key],at=document.activeElement;\n\
    if(!by||e.ctrlKey||e.altKey||e.metaKey||at==part('slider')||at==part('kept'))return;\n\
    if(at==part('states')&&e.key!='ArrowLeft'&&e.key!='ArrowRight')return;\n\
    e.preventDefault();\n\
    step(by);\n\
    };\n\
    window.onhashchange=linked;\n\
    choices();\n\
    arrows();\n\
    var chosen=location.hash;\n\
    sections.forEach(function(it,n){if('#'+it.id==chosen)now=n});\n\
    choose();\n\
    window.onload=function(){part('states').scrollTop=0};\n\
    })();\n\
    </script></body></html>\n";

/// What is before the drawing.
pub fn before_drawing() -> &'static str
    ensures { result.now ≡ before_drawing }
{
    BEFORE_DRAWING
}

/// What is between the drawing and the switch to calls and replies.
pub fn after_drawing() -> &'static str
    ensures { result.now ≡ after_drawing }
{
    AFTER_DRAWING
}

/// What says whether the switch is on.
pub fn switch(form: Form) -> &'static str
    ensures { result.now ≡ switch_text form }
{
    match form {
        Form::Calls => " checked",
        Form::Drawing | Form::Page => "",
    }
}

/// What is between the switch and the first section.
pub fn after_switch() -> &'static str
    ensures { result.now ≡ after_switch }
{
    AFTER_SWITCH
}

/// What is after the last section.
pub fn after_sections() -> &'static str
    ensures { result.now ≡ after_sections }
{
    AFTER_SECTIONS
}
